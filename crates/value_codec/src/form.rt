ghost use Rattle.std.specs.Prelude.{◌≡◌, ◌≢◌, ◌^◌, ◌==◌, nat_lt, IfSome, IsNone};
ghost use Rattle.std.specs.List.{list_all};
ghost use Rattle.value_codec.specs.Steps.{form_byte, form_of, is_run};
ghost use Rattle.value_codec.specs.declared.form.Form.{Form};

/// How the steps behind the first are written.
#[derive(Clone, Copy, Debug, PartialEq, Eq)]
pub enum Form {
    /// Eight bytes each.
    Raw,
    /// Simple8b words of eight bytes.
    Packed,
    /// The one step that repeats, and how often it stands.
    RunLength,
}

/// The first byte of numbers in this form.
pub fn byte_of(form: Form) -> u8
    ensures { result ≡ form_byte form }
{
    match form {
        Form::Raw => 0,
        Form::Packed => 0x10,
        Form::RunLength => 0x20,
    }
}

/// The form with this first byte.
pub fn form_with(byte: u8) -> Option<Form>
    ensures found { IfSome result (λ form. form_byte form ≡ byte) }
    ensures none { IsNone result → (form : Form) → form_byte form ≢ byte }
{
    match byte {
        0 => Some(Form::Raw),
        0x10 => Some(Form::Packed),
        0x20 => Some(Form::RunLength),
        _ => None,
    }
}

/// The form in which these steps are written.
pub fn form_for(first: u64, rest: &[u64]) -> Form
    ensures { result ≡ form_of first rest.now }
{
    if repeats(rest) {
        return Form::RunLength;
    }
    if first >= 1 << 60 {
        return Form::Raw;
    }
    if are_narrow(rest) {
        return Form::Packed;
    }
    Form::Raw
}

/// Whether there are two or more steps, all equal.
fn repeats(steps: &[u64]) -> bool
    ensures { result ≡ is_run steps.now }
{
    let Some((first, others)) = steps.split_first() else {
        return false;
    };
    if others.is_empty() {
        return false;
    }
    are_all(others, *first)
}

fn are_all(steps: &[u64], one: u64) -> bool
    ensures { result ≡ list_all (λ step. step == one) steps.now }
{
    steps.iter().all(|step| *step == one)
}

// Without a way out in between, so that the loop takes several steps a turn.
fn are_narrow(steps: &[u64]) -> bool
    ensures { result ≡ list_all (λ step. nat_lt step (2 ^ 60)) steps.now }
{
    let mut narrow = true;
    for step in steps {
        narrow &= *step < 1 << 60;
    }
    narrow
}
