ghost use Rattle.std.specs.Prelude.{◌≡◌, ◌∷◌, ◌<◌, ◌≤◌, ◌%◌, ◌↔◌, [], IsTrue, MatchOption, length};
ghost use Rattle.std.specs.List.{AllByRecursion};
ghost use Rattle.std.specs.String.{string_bytes};
ghost use Rattle.session_io.specs.declared.client.Word.{Word};
ghost use Rattle.tsm_server.specs.Words.{AsksMem, AsksRun, AsksShell, IsMem, IsPlain, IsRun, IsShell, names_in};

use session_io::Word;

/// The names of the input and the output where the words are `mem IN OUT`.
pub fn mem_names(words: &[Word]) -> Option<(&str, &str)>
    ensures { MatchOption result (¬ (IsMem words.now)) (λ names. AsksMem words.now names.0.now names.1.now) }
{
    match words {
        [name, input, output] if name.text.as_str() == "mem" => {
            let (input, output) = (input.text.as_str(), output.text.as_str());
            if is_plain(input) && is_plain(output) {
                Some((input, output))
            } else {
                None
            }
        }
        _ => None,
    }
}

/// The path where the words are `shell DIR`.
pub fn shell_path(words: &[Word]) -> Option<&str>
    ensures { MatchOption result (¬ (IsShell words.now)) (λ path. AsksShell words.now path.now) }
{
    match words {
        [name, path] if name.text.as_str() == "shell" => {
            let path = path.text.as_str();
            if is_plain(path) { Some(path) } else { None }
        }
        _ => None,
    }
}

/// The path, and the words of the clients' names, where the words are `run DIR IN OUT [IN OUT ..]` with one client to eight.
pub fn run_names(words: &[Word]) -> Option<(&str, &[Word])>
    ensures { MatchOption result (¬ (IsRun words.now)) (λ run. AsksRun words.now run.0.now (names_in run.1.now)) }
{
    match first_two(words) {
        Some((name, path, names)) if name.text.as_str() == "run" => {
            if is_count(names.len()) && are_plain(words) {
                Some((path.text.as_str(), names))
            } else {
                None
            }
        }
        _ => None,
    }
}

/// The names of the first client, and the words behind them.
pub(crate) fn first_names(words: &[Word]) -> Option<(&str, &str, &[Word])>
    ensures { MatchOption result (names_in words.now ≡ []) (λ first. (names_in words.now
        ≡ record { input = first.0.now; output = first.1.now } ∷ names_in first.2.now) × (length first.2.now < length words.now)) }
{
    match first_two(words) {
        Some((input, output, behind)) => {
            Some((input.text.as_str(), output.text.as_str(), behind))
        }
        None => None,
    }
}

fn first_two(words: &[Word]) -> Option<(&Word, &Word, &[Word])>
    ensures { MatchOption result (length words.now < 2) (λ first. words.now ≡ first.0.now ∷ first.1.now ∷ first.2.now) }
{
    match words {
        [one, other, behind @ ..] => Some((one, other, behind)),
        _ => None,
    }
}

// So many words name one client to eight.
fn is_count(words: usize) -> bool
    ensures { IsTrue result ↔ (words % 2 ≡ 0) × (2 ≤ words) × (words ≤ 16) }
{
    words % 2 == 0 && words >= 2 && words <= 16
}

fn are_plain(words: &[Word]) -> bool
    ensures { IsTrue result ↔ AllByRecursion (λ (word : Word). IsPlain (string_bytes word.text)) words.now }
{
    words.iter().all(|word| is_plain(word.text.as_str()))
}

fn is_plain(word: &str) -> bool
    ensures { IsTrue result ↔ IsPlain word.now }
{
    match word.as_bytes().first() {
        None => false,
        Some(first) => *first != b'-',
    }
}
