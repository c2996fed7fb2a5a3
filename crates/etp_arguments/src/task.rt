// What the words of the command line ask.
ghost use Rattle.std.specs.Prelude.{◌≡◌, ◌≤◌, ◌∷◌, [], IfSome, map};
ghost use Rattle.std.specs.String.{string_bytes};
ghost use Rattle.etp_words.specs.Numbers.{number_said};
ghost use Rattle.etp_arguments.specs.Arguments.{between, task_of, IsInRange};

use etp_command::ListOrder;
use etp_words::{is, number_word};

/// What the words of the command line ask.
#[derive(Clone, Copy, Debug, PartialEq, Eq)]
pub enum Task {
    Session,
    Laws(ListOrder),
    /// A script of 1 to 10000 files, from a seed.
    Generate {
        count: u32,
        seed: u32,
    },
    /// The summary of a ledger that took as many such files and withdrew the first.
    Demo {
        count: u32,
        seed: u32,
    },
    /// A search for a shortest proof from one law to another, of order 4, over terms of at most 1 to 6
    /// leaves and with at most 0 to 12 steps.
    Shortest {
        hypothesis: u32,
        goal: u32,
        leaves: u8,
        steps: u8,
    },
    /// A completion of a law of order 4, from 2 on, under a weight that is in no range yet; the target
    /// is the law, of order 4, that is to fail.
    Complete {
        law: u32,
        target: u32,
        a: u32,
        b: u32,
        c: u32,
    },
    Unknown,
}

/// What these words of the command line ask.
pub fn task_of(words: &[String]) -> Task
    ensures task { result ≡ task_of (map string_bytes words.now) }
    ensures range { IsInRange result }
{
    match words {
        [] => Task::Session,
        [word] => task_of_word(word.as_bytes()),
        [word, other] => task_of_words(word.as_bytes(), other.as_bytes()),
        [word, count, seed] => files_task(word.as_bytes(), count.as_bytes(), seed.as_bytes()),
        [_, _, _, _] => Task::Unknown,
        [word, e, f, leaves, steps] => shortest_task(
            word.as_bytes(),
            e.as_bytes(),
            f.as_bytes(),
            leaves.as_bytes(),
            steps.as_bytes(),
        ),
        [word, law, target, a, b, c] => complete_task(
            word.as_bytes(),
            law.as_bytes(),
            target.as_bytes(),
            a.as_bytes(),
            b.as_bytes(),
            c.as_bytes(),
        ),
        _ => Task::Unknown,
    }
}

fn task_of_word(word: &[u8]) -> Task
    ensures task { result ≡ task_of (word.now ∷ []) }
    ensures range { IsInRange result }
{
    if is(word, "session") {
        return Task::Session;
    }
    if is(word, "laws") {
        return Task::Laws(ListOrder::Four);
    }
    Task::Unknown
}

fn task_of_words(word: &[u8], other: &[u8]) -> Task
    ensures task { result ≡ task_of (word.now ∷ other.now ∷ []) }
    ensures range { IsInRange result }
{
    if is(word, "laws") && is(other, "5") {
        return Task::Laws(ListOrder::Five);
    }
    Task::Unknown
}

/// The number that a word is, where it is from `low` to `high`.
fn between(low: u32, high: u32, word: &[u8]) -> Option<u32>
    ensures value { result ≡ between low high (number_said word.now) }
    ensures low { IfSome result (λ n. low ≤ n) }
    ensures high { IfSome result (λ n. n ≤ high) }
{
    let number = number_word(word)?;
    if low <= number && number <= high {
        Some(number)
    } else {
        None
    }
}

fn files_task(word: &[u8], count: &[u8], seed: &[u8]) -> Task
    ensures task { result ≡ task_of (word.now ∷ count.now ∷ seed.now ∷ []) }
    ensures range { IsInRange result }
{
    let generate = is(word, "generate");
    if !generate && !is(word, "demo") {
        return Task::Unknown;
    }
    let Some(count) = between(1, 10000, count) else {
        return Task::Unknown;
    };
    let Some(seed) = number_word(seed) else {
        return Task::Unknown;
    };
    if generate {
        Task::Generate { count, seed }
    } else {
        Task::Demo { count, seed }
    }
}

fn shortest_task(word: &[u8], e: &[u8], f: &[u8], leaves: &[u8], steps: &[u8]) -> Task
    ensures task { result ≡ task_of (word.now ∷ e.now ∷ f.now ∷ leaves.now ∷ steps.now ∷ []) }
    ensures range { IsInRange result }
{
    if !is(word, "shortest") {
        return Task::Unknown;
    }
    let Some(hypothesis) = between(1, 4694, e) else {
        return Task::Unknown;
    };
    let Some(goal) = between(1, 4694, f) else {
        return Task::Unknown;
    };
    let Some(leaves) = between(1, 6, leaves) else {
        return Task::Unknown;
    };
    let Some(steps) = between(0, 12, steps) else {
        return Task::Unknown;
    };
    Task::Shortest {
        hypothesis,
        goal,
        leaves: leaves as u8,
        steps: steps as u8,
    }
}

fn complete_task(word: &[u8], law: &[u8], target: &[u8], a: &[u8], b: &[u8], c: &[u8]) -> Task
    ensures task { result ≡ task_of
        (word.now ∷ law.now ∷ target.now ∷ a.now ∷ b.now ∷ c.now ∷ []) }
    ensures range { IsInRange result }
{
    if !is(word, "complete") {
        return Task::Unknown;
    }
    let Some(law) = between(2, 4694, law) else {
        return Task::Unknown;
    };
    let Some(target) = between(1, 4694, target) else {
        return Task::Unknown;
    };
    let (Some(a), Some(b), Some(c)) = (number_word(a), number_word(b), number_word(c)) else {
        return Task::Unknown;
    };
    Task::Complete {
        law,
        target,
        a,
        b,
        c,
    }
}
