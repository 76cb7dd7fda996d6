// Numbers and durations with their signs, as 64 bits hold them.
ghost use Rattle.std.specs.Prelude.{◌≡◌, false};
ghost use Rattle.influxql_parser.specs.GrammarPieces as spec;
ghost use Rattle.influxql_parser.specs.GrammarPieces.{in_range, negated, sum_in_range, literal_number};

use query_model::Literal;

// The number, where 64 bits with a sign hold it.
pub fn fitting(number: i128) -> Option<i64>
    ensures { result ≡ in_range number }
{
    if number >= -9223372036854775808 && number <= 9223372036854775807 {
        return Some(number as i64);
    }
    None
}

// The number of digits with a minus or without.
pub fn signed(negative: bool, number: Option<u64>) -> Option<i64>
    ensures { result ≡ spec.signed negative number }
{
    match number {
        None => None,
        Some(number) => {
            if negative {
                return fitting(-(number as i128));
            }
            fitting(number as i128)
        }
    }
}

// The nanoseconds of a duration.
pub fn duration(nanoseconds: Option<u64>) -> Option<i64>
    ensures { result ≡ spec.signed false nanoseconds }
{
    signed(false, nanoseconds)
}

// The nanoseconds of a duration that is taken away.
pub fn taken(nanoseconds: Option<u64>) -> Option<i64>
    ensures { result ≡ negated (spec.signed false nanoseconds) }
{
    match nanoseconds {
        None => None,
        Some(number) => {
            if number > 9223372036854775807 {
                return None;
            }
            Some(-(number as i64))
        }
    }
}

// The nanoseconds of a duration with a minus or without.
pub fn signed_duration(negative: bool, nanoseconds: Option<u64>) -> Option<i64>
    ensures { result ≡ spec.signed_duration negative nanoseconds }
{
    if negative {
        return taken(nanoseconds);
    }
    duration(nanoseconds)
}

// The sum, where both and it are in range.
pub fn sum(number: Option<i64>, more: Option<i64>) -> Option<i64>
    ensures { result ≡ sum_in_range number more }
{
    match number {
        None => None,
        Some(number) => match more {
            None => None,
            Some(more) => fitting(number as i128 + more as i128),
        },
    }
}

// The number that a name is compared with.
pub fn literal_of(number: Option<u64>) -> Option<Literal>
    ensures { result ≡ literal_number number }
{
    match number {
        None => None,
        Some(number) => {
            if number <= 9223372036854775807 {
                return Some(Literal::Int(number as i64));
            }
            Some(Literal::Uint(number))
        }
    }
}
