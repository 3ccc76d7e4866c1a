//! The commands that the words may ask for.
ghost use Rattle.std.specs.Prelude.{◌≡◌, ◌↔◌, ◌≤◌, ℕ, [], ◌∷◌, Some, codes, pos};
ghost use Rattle.std.specs.Fmt.{decimal};
ghost use Rattle.pipeflex_top.specs.Run.{Ask, Asks};

use text_words::number;

/// What the program is to write.
#[derive(Clone, Copy)]
pub enum Command {
    /// Something of the model whose text is read.
    Read(Reading),
    /// The text of the generated model of so many loops, 1 to 400.
    Generate { loops: u32 },
    /// The counts of the report of that text, which so many workers analyse, 1 to 64.
    Summary { loops: u32, workers: u32 },
}

/// What is to be made of the model whose text is read.
#[derive(Clone, Copy)]
pub enum Reading {
    /// Its member table.
    Members,
    /// Its canonical text.
    Echo,
    /// The report of its analysis by so many workers, 1 to 64.
    Analyse { workers: u32 },
}

/// How many workers an analysis has where the words don't say.
const WORKERS: u32 = 4;

/// The most workers that the words may ask for.
const MOST_WORKERS: u32 = 64;

/// The most loops that a generated model may have.
const MOST_LOOPS: u32 = 400;

/// The command that the words ask for, or `None` where they have none of the forms.
pub fn command_of(words: &[String]) -> Option<Command>
    ensures { (command : Command) → (result ≡ Some command) ↔ Asks words.now command }
{
    match words {
        [word] => command_named(word.as_str()),
        [word, loops] => command_on(word.as_str(), loops.as_str()),
        [word, option, count] => analysis_by(word.as_str(), option.as_str(), count.as_str()),
        [word, loops, option, count] => summary_by(
            word.as_str(),
            loops.as_str(),
            option.as_str(),
            count.as_str(),
        ),
        _ => None,
    }
}

// The command of that word alone.
fn command_named(word: &str) -> Option<Command>
    ensures { (command : Command) → (result ≡ Some command) ↔ Ask (word.now ∷ []) command }
{
    if word == "members" {
        return Some(Command::Read(Reading::Members));
    }
    if word == "echo" {
        return Some(Command::Read(Reading::Echo));
    }
    if word == "analyse" {
        return Some(Command::Read(Reading::Analyse { workers: WORKERS }));
    }
    None
}

// The command of a word and a number of loops.
fn command_on(word: &str, loops: &str) -> Option<Command>
    ensures { (command : Command) → (result ≡ Some command) ↔ Ask (word.now ∷ loops.now ∷ []) command }
{
    let loops = number_to(loops, MOST_LOOPS)?;
    if word == "generate" {
        return Some(Command::Generate { loops });
    }
    if word == "summary" {
        return Some(Command::Summary {
            loops,
            workers: WORKERS,
        });
    }
    None
}

// The command of a word and a stated number of workers.
fn analysis_by(word: &str, option: &str, count: &str) -> Option<Command>
    ensures { (command : Command) → (result ≡ Some command) ↔ Ask (word.now ∷ option.now ∷ count.now ∷ []) command }
{
    if word != "analyse" {
        return None;
    }
    let workers = workers_of(option, count)?;
    Some(Command::Read(Reading::Analyse { workers }))
}

// The command of a word, a number of loops and a stated number of workers.
fn summary_by(word: &str, loops: &str, option: &str, count: &str) -> Option<Command>
    ensures { (command : Command) → (result ≡ Some command)
        ↔ Ask (word.now ∷ loops.now ∷ option.now ∷ count.now ∷ []) command }
{
    if word != "summary" {
        return None;
    }
    let loops = number_to(loops, MOST_LOOPS)?;
    let workers = workers_of(option, count)?;
    Some(Command::Summary { loops, workers })
}

// The number of workers that an option states.
fn workers_of(option: &str, count: &str) -> Option<u32>
    ensures { (n : ℕ) → (result ≡ Some n)
        ↔ ((option.now ≡ codes "--workers") × (count.now ≡ decimal n) × (1 ≤ n) × (n ≤ 64)) }
{
    if option != "--workers" {
        return None;
    }
    number_to(count, MOST_WORKERS)
}

// The number that a word states, from 1 to `most`.
fn number_to(word: &str, most: u32) -> Option<u32>
    ensures { (n : ℕ) → (result ≡ Some n) ↔ ((word.now ≡ decimal n) × (1 ≤ n) × (n ≤ most)) }
{
    match number(word.as_bytes()) {
        Ok(stated) => within_range(stated, most),
        Err(_) => None,
    }
}

// The number, where it is one from 1 to `most`.
fn within_range(stated: i64, most: u32) -> Option<u32>
    ensures { (n : ℕ) → (result ≡ Some n) ↔ ((stated ≡ pos n) × (1 ≤ n) × (n ≤ most)) }
{
    if stated < 1 || stated > most as i64 {
        return None;
    }
    Some(stated as u32)
}
