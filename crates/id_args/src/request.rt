//! What the words of a command line ask for.

use std::alloc::AllocError;

/// What the words ask for.
#[derive(Drop)]
pub enum Request<'a> {
    /// Say whether the file is accepted.
    Check {
        file: &'a str,
    },
    /// Print the graph of the file.
    Graph {
        file: &'a str,
    },
    /// Print the picture of the graph of the file.
    Draw {
        file: &'a str,
    },
    /// Run the file on these input words, on so many elements, each for at most so many messages, in the order that
    /// the seed gives, where there is one, and print the trace before all else, or not, and what its names have, too,
    /// or not.
    Run {
        file: &'a str,
        inputs: Vec<&'a str>,
        count: u32,
        trace: bool,
        steps: u64,
        order: Option<u64>,
        names: bool,
    },
    /// Print the facts of a round of the file on these input words.
    Facts {
        file: &'a str,
        rounds: u32,
        inputs: Vec<&'a str>,
    },
    /// Print what lacks a value in a round of the file on these input words, and what it waits for.
    Why {
        file: &'a str,
        rounds: u32,
        inputs: Vec<&'a str>,
    },
    /// Judge whether what these logs have, merged, is the trace of a run of the file on these input words, on so many
    /// elements, and print the report of that run, with what its names have, too, or not.
    Judge {
        file: &'a str,
        logs: Vec<&'a str>,
        inputs: Vec<&'a str>,
        count: u32,
        names: bool,
    },
}

/// Why the words ask for nothing.
#[derive(Drop)]
pub enum Unasked {
    /// They ask for help: this text, for standard output.
    Help(String),
    /// They are refused: this text, for standard error.
    Refused(String),
    /// A growth was refused.
    Memory,
}

impl From<AllocError> for Unasked {
    ghost use Rattle.std.specs.Prelude.{◌≡◌};
    ghost use Rattle.id_args.specs.declared.request.Unasked.TheVariants.{Memory};

    ghost from_gives = { λ _ u. u ≡ Memory };

    fn from(_error: AllocError) -> Unasked {
        Unasked::Memory
    }
}
