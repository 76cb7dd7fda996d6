//! The texts of replies.
ghost use Rattle.std.specs.Prelude.{◌≡◌, ◌≤◌, ◌++◌, ◌∷◌, [], map, length, nat_le, OnOk, OnErr, if◌then◌else◌};
ghost use Rattle.std.specs.Fmt.{decimal, signed_decimal};
ghost use Rattle.std.specs.List.{flat_map};
ghost use Rattle.std.specs.Vec.{vec_capacity};
ghost use Rattle.session_model.specs.Readable.{IsReadable};
ghost use Rattle.session_loop.specs.Texts.{IsTextOf};
ghost use Rattle.session_model.specs.Replies.{text as text_of, ended, table_lines, row_line, code_text, kind_text, name_text, shown, shown_text};
ghost use Rattle.session_model.specs.Replies.Reply.{Accepted, Found, Reached, NotReached, NotBuilt, Refused, TypeConflict, HistoryFull, OutOfMemory, DeviceFault, Damaged, CacheFull, SeriesFull};
ghost use Rattle.session_model.specs.Machine.{tables_of, shown_row};

use itoa::Buffer;
use line_protocol::LineCode;
use session_model::Refusal;
use std::alloc::{AllocError, Global};
use std::marker::Model;
use tsdb_types::{Kind, Name, Time, Value};

/// The longest reply that takes no memory.
const ROOM: usize = 128;

/// The bytes of a reply. There is always room for a short one.
#[derive(Drop)]
pub struct ReplyText {
    bytes: Vec<u8>,
    ghost room: { 128 ≤ vec_capacity bytes },
}

impl Model for ReplyText {
    ghost use Rattle.std.specs.Prelude.{ℕ, List};

    ghost Value = { List ℕ };

    ghost view = { λ t. t.bytes.items };
}

impl ReplyText {
    pub fn new(alloc: Global) -> Result<Self, AllocError> {
        Ok(ReplyText {
            bytes: Vec::with_capacity(alloc, ROOM)?,
        })
    }

    pub fn bytes(&self) -> &[u8]
        ensures { result.now ≡ self.now }
    {
        &self.bytes
    }

    /// The entry with this number was accepted. It takes no memory.
    #[tactic(auto, unfolding(session_model::specs::Replies::first_line))]
    pub fn accepted(&mut self, number: u64)
        ensures { self.new ≡ text_of (Accepted number) }
    {
        let mut digits = Buffer::new();
        let digits = digits.format(number).as_bytes();
        self.bytes.clear();
        let _ = self.bytes.extend_from_slice(b"ok ");
        let _ = self.bytes.extend_from_slice(digits);
        let _ = self.bytes.extend_from_slice(b"\n");
    }

    /// There was no memory for the request. It takes none.
    #[tactic(auto, unfolding(session_model::specs::Replies::first_line))]
    pub fn out_of_memory(&mut self)
        ensures { self.new ≡ text_of OutOfMemory }
    {
        self.bytes.clear();
        let _ = self.bytes.extend_from_slice(b"error E4 Memory\n");
    }

    /// The number that an AFTER asks for is reached, or isn't. It takes no memory.
    #[tactic(auto, unfolding(session_model::specs::Replies::first_line))]
    pub fn after(&mut self, wanted: u64, number: u64)
        ensures { self.new ≡ text_of (if nat_le wanted number then Reached number else NotReached number) }
    {
        if wanted <= number {
            self.numbered(b"at ", number);
            return;
        }
        self.numbered(b"notyet ", number);
    }

    #[tactic(auto, unfolding(session_model::specs::Replies::first_line))]
    pub fn not_built(&mut self)
        ensures { self.new ≡ text_of NotBuilt }
    {
        self.short(b"error B1 NotBuilt\n");
    }

    #[tactic(auto, unfolding(session_model::specs::Replies::first_line))]
    pub fn history_full(&mut self)
        ensures { self.new ≡ text_of HistoryFull }
    {
        self.short(b"error E5 HistoryFull\n");
    }

    #[tactic(auto, unfolding(session_model::specs::Replies::first_line))]
    pub fn device_fault(&mut self)
        ensures { self.new ≡ text_of DeviceFault }
    {
        self.short(b"error E2 Fault\n");
    }

    #[tactic(auto, unfolding(session_model::specs::Replies::first_line))]
    pub fn cache_full(&mut self, held: u64)
        ensures { self.new ≡ text_of (CacheFull held) }
    {
        self.numbered(b"error E1 CacheFull ", held);
    }

    #[tactic(auto, unfolding(session_model::specs::Replies::first_line))]
    pub fn series_full(&mut self, held: u64)
        ensures { self.new ≡ text_of (SeriesFull held) }
    {
        self.numbered(b"error E6 SeriesFull ", held);
    }

    #[tactic(auto, unfolding(session_model::specs::Replies::first_line))]
    pub fn damaged(&mut self, file: u32, offset: u64)
        ensures { self.new ≡ text_of (Damaged file offset) }
    {
        let mut digits = Buffer::new();
        let mut more = Buffer::new();
        let file = digits.format(file).as_bytes();
        let offset = more.format(offset).as_bytes();
        self.bytes.clear();
        let _ = self.bytes.extend_from_slice(b"error E3 Damaged ");
        let _ = self.bytes.extend_from_slice(file);
        let _ = self.bytes.extend_from_slice(b" ");
        let _ = self.bytes.extend_from_slice(offset);
        let _ = self.bytes.extend_from_slice(b"\n");
    }

    #[tactic(auto, unfolding(session_model::specs::Replies::first_line))]
    pub fn refused(&mut self, refusal: Refusal)
        ensures text { self.new ≡ text_of (Refused refusal) }
        ensures readable { IsReadable (Refused refusal) }
    {
        match refusal {
            Refusal::LineTooLong => self.short(b"error S1 LineTooLong\n"),
            Refusal::BatchCut => self.short(b"error S2 BatchCut\n"),
            Refusal::NotText => self.short(b"error S3 NotText\n"),
            Refusal::Syntax => self.short(b"error Q1 Syntax\n"),
            Refusal::TimeInOr => self.short(b"error Q2 TimeInOr\n"),
            Refusal::NumberRange => self.short(b"error Q3 NumberRange\n"),
            Refusal::Protocol { code, line } => self.refused_line(code, line),
        }
    }

    /// The code of a line of writing, and its place where it isn't the whole text.
    #[tactic(auto, unfolding(session_model::specs::Replies::first_line))]
    fn refused_line(&mut self, code: LineCode, line: u32)
        ensures text { self.new ≡ text_of (Refused (Refusal.Protocol code line)) }
        ensures readable { IsReadable (Refused (Refusal.Protocol code line)) }
    {
        let name = code_name(code).as_bytes();
        self.bytes.clear();
        let _ = self.bytes.extend_from_slice(b"error ");
        let _ = self.bytes.extend_from_slice(name);
        if line == 0 {
            let _ = self.bytes.extend_from_slice(b"\n");
            return;
        }
        let mut digits = Buffer::new();
        let _ = self.bytes.extend_from_slice(b" line ");
        let _ = self.bytes.extend_from_slice(digits.format(line).as_bytes());
        let _ = self.bytes.extend_from_slice(b"\n");
    }

    /// The word and the number on a line. It takes no memory.
    fn numbered(&mut self, word: &[u8], number: u64)
        requires { length word.now ≤ 64 }
        ensures { self.new ≡ word.now ++ decimal number ++ 10 ∷ [] }
    {
        let mut digits = Buffer::new();
        let digits = digits.format(number).as_bytes();
        self.bytes.clear();
        let _ = self.bytes.extend_from_slice(word);
        let _ = self.bytes.extend_from_slice(digits);
        let _ = self.bytes.extend_from_slice(b"\n");
    }

    /// These bytes, in the place of what was there. It takes no memory.
    fn short(&mut self, bytes: &[u8])
        requires { length bytes.now ≤ 128 }
        ensures { self.new ≡ bytes.now }
    {
        self.bytes.clear();
        let _ = self.bytes.extend_from_slice(bytes);
    }

    #[tactic(auto, using(crate::proofs::ServingLemmas::name_lacks))]
    pub fn conflict(&mut self, field: &Name, held: Kind, number: u64)
        ensures text { IsTextOf (TypeConflict field.now held number) self.new }
        ensures readable { IsReadable (TypeConflict field.now held number) }
    {
        let name = field.as_str();
        let written = self.conflict_line(name, held, number);
        self.settle(written);
    }

    /// The rows of a field; a field without a row has no table.
    pub fn found(&mut self, number: u64, measurement: &Name, field: &Name, rows: &[(Time, Value)])
        ensures { IsTextOf (Found number (tables_of measurement.now field.now rows.now)) self.new }
    {
        let written = self.found_lines(number, measurement, field, rows);
        self.settle(written);
    }

    /// Where there was no memory for a text, it tells that.
    fn settle(&mut self, written: Result<(), AllocError>)
        ensures ok { OnOk written (self.new ≡ self.old) }
        ensures err { OnErr written (self.new ≡ text_of OutOfMemory) }
    {
        if written.is_err() {
            self.out_of_memory();
        }
    }

    #[tactic(auto, unfolding(session_model::specs::Replies::first_line))]
    fn conflict_line(&mut self, field: &str, held: Kind, number: u64) -> Result<(), AllocError>
        ensures { OnOk result (self.new ≡ text_of (TypeConflict field.now held number)) }
    {
        self.short(b"error T1 TypeConflict ");
        self.add_name(field.as_bytes())?;
        self.add(b" ")?;
        self.add(kind_name(held).as_bytes())?;
        self.add(b" at ")?;
        self.add_number(number)?;
        self.add(b"\n")
    }

    #[tactic(auto, unfolding(session_model::specs::Replies::first_line))]
    fn found_lines(
        &mut self,
        number: u64,
        measurement: &Name,
        field: &Name,
        rows: &[(Time, Value)],
    ) -> Result<(), AllocError>
        ensures { OnOk result (self.new ≡ text_of (Found number (tables_of measurement.now field.now rows.now))) }
    {
        self.numbered(b"at ", number);
        self.add_tables(measurement, field, rows)?;
        self.add(b".\n")
    }

    fn add_tables(
        &mut self,
        measurement: &Name,
        field: &Name,
        rows: &[(Time, Value)],
    ) -> Result<(), AllocError>
        ensures { OnOk result (self.new ≡ self.old ++ ended (flat_map table_lines (tables_of measurement.now field.now rows.now))) }
    {
        if rows.is_empty() {
            return Ok(());
        }
        self.add_heading(b"name: ", measurement)?;
        self.add_heading(b"time ", field)?;
        self.add_rows(rows)
    }

    fn add_heading(&mut self, word: &[u8], name: &Name) -> Result<(), AllocError>
        ensures { OnOk result (self.new ≡ self.old ++ ((word.now ++ name.now) ++ 10 ∷ [])) }
    {
        self.add(word)?;
        self.add(name.as_str().as_bytes())?;
        self.add(b"\n")
    }

    fn add_rows(&mut self, rows: &[(Time, Value)]) -> Result<(), AllocError>
        ensures { OnOk result (self.new ≡ self.old ++ ended (map row_line (map shown_row rows.now))) }
    {
        for row in rows {
            self.add_row(row.0, row.1)?;
        }
        Ok(())
    }

    fn add_row(&mut self, time: Time, value: Value) -> Result<(), AllocError>
        ensures { OnOk result (self.new ≡ self.old ++ (row_line (shown_row (time, value)) ++ 10 ∷ [])) }
    {
        self.add_signed(time.get())?;
        self.add(b" ")?;
        self.add_value(value)?;
        self.add(b"\n")
    }

    fn add_value(&mut self, value: Value) -> Result<(), AllocError>
        ensures { OnOk result (self.new ≡ self.old ++ shown_text (shown value)) }
    {
        match value {
            Value::Int(number) => self.add_signed(number),
            Value::Uint(number) => self.add_number(number),
            Value::Bool(true) => self.add(b"true"),
            Value::Bool(false) => self.add(b"false"),
        }
    }

    /// A name, with a backslash before each comma, equals sign and space.
    fn add_name(&mut self, name: &[u8]) -> Result<(), AllocError>
        ensures { OnOk result (self.new ≡ self.old ++ name_text name.now) }
    {
        for byte in name {
            if matches!(*byte, b',' | b'=' | b' ') {
                self.add(b"\\")?;
            }
            self.bytes.push(*byte)?;
        }
        Ok(())
    }

    fn add_number(&mut self, number: u64) -> Result<(), AllocError>
        ensures { OnOk result (self.new ≡ self.old ++ decimal number) }
    {
        let mut digits = Buffer::new();
        self.add(digits.format(number).as_bytes())
    }

    fn add_signed(&mut self, number: i64) -> Result<(), AllocError>
        ensures { OnOk result (self.new ≡ self.old ++ signed_decimal number) }
    {
        let mut digits = Buffer::new();
        self.add(digits.format(number).as_bytes())
    }

    fn add(&mut self, bytes: &[u8]) -> Result<(), AllocError>
        ensures { OnOk result (self.new ≡ self.old ++ bytes.now) }
    {
        self.bytes.extend_from_slice(bytes)?;
        Ok(())
    }
}

/// The code of a line and its name.
#[tactic(auto, unfolding(session_model::specs::Replies::code_text))]
fn code_name(code: LineCode) -> &'static str
    ensures text { result.now ≡ code_text code }
    ensures short { length result.now ≤ 20 }
{
    match code {
        LineCode::NoMeasurement => "L1 NoMeasurement",
        LineCode::BadTag => "L2 BadTag",
        LineCode::DuplicateTag => "L3 DuplicateTag",
        LineCode::NoField => "L4 NoField",
        LineCode::BadField => "L5 BadField",
        LineCode::FloatValue => "L6 FloatValue",
        LineCode::StringValue => "L7 StringValue",
        LineCode::NumberRange => "L8 NumberRange",
        LineCode::BadTime => "L9 BadTime",
        LineCode::TimeRange => "L10 TimeRange",
        LineCode::KeyTooLong => "L11 KeyTooLong",
        LineCode::MarkInKey => "L12 MarkInKey",
        LineCode::ReservedName => "L13 ReservedName",
        LineCode::KindInBatch => "L14 KindInBatch",
        LineCode::NoPoints => "L15 NoPoints",
        LineCode::BatchTooLong => "L16 BatchTooLong",
    }
}

fn kind_name(kind: Kind) -> &'static str
    ensures { result.now ≡ kind_text kind }
{
    match kind {
        Kind::Integer => "integer",
        Kind::Unsigned => "unsigned",
        Kind::Boolean => "boolean",
    }
}
