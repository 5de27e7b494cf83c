//! The words of a command line.
ghost use Rattle.std.specs.Prelude.{◌≤◌, ◌∷◌, [], IsTrue, map, string_bytes, option_map};
ghost use Rattle.wg_gen.specs.Alike.{MayGenerate};
ghost use Rattle.wg_top.specs.Words.{IsJobOf, Spells, generation_words};

/// What is asked for.
#[derive(Clone, Copy, PartialEq, Eq)]
pub enum Job {
    /// A script is read and played.
    Run,
    /// A trace is read and judged.
    Check,
    /// A script is generated, of so many iterations in each of so many lanes, and played. Without a number
    /// of lanes it has one, and its barriers and clears are counted too.
    Generate { count: u32, lanes: Option<u32> },
}

/// The number, not 0, that a word spells in decimal digits, without leading zeros.
fn number_in(word: &str) -> Option<u32>
    ensures { Spells word.now result }
{
    match word.as_bytes() {
        [b'1'..=b'9', ..] => word.parse().ok(),
        _ => None,
    }
}

/// Whether so many iterations in so many lanes may be asked for.
fn may_generate(count: u32, lanes: u32) -> bool
    requires { (1 ≤ count) × (1 ≤ lanes) }
    ensures yes { IsTrue result → MayGenerate count lanes }
    ensures no { MayGenerate count lanes → IsTrue result }
{
    count <= 8000 && lanes <= 64 && count * lanes <= 8000
}

/// The job that `gen` with these words asks for.
fn generation(count: &str, lanes: Option<&str>) -> Option<Job>
    ensures { IsJobOf (generation_words count.now (option_map (λ word. word.now) lanes.entry)) result }
{
    let count = number_in(count)?;
    let lanes = match lanes {
        Some(word) => Some(number_in(word)?),
        None => None,
    };
    if may_generate(count, lanes.unwrap_or(1)) {
        Some(Job::Generate { count, lanes })
    } else {
        None
    }
}

/// The job that one word asks for.
fn named(word: &str) -> Option<Job>
    ensures { IsJobOf (word.now ∷ []) result }
{
    if word == "run" {
        return Some(Job::Run);
    }
    if word == "check" {
        return Some(Job::Check);
    }
    None
}

/// The job that the words ask for: the single word `run` or `check`, or `gen` and one or two numbers.
pub fn job_of(words: &[String]) -> Option<Job>
    ensures { IsJobOf (map string_bytes words.now) result }
{
    match words {
        [word] => named(word.as_str()),
        [word, count] if word.as_str() == "gen" => generation(count.as_str(), None),
        [word, count, lanes] if word.as_str() == "gen" => {
            generation(count.as_str(), Some(lanes.as_str()))
        }
        _ => None,
    }
}
