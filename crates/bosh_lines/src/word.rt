ghost use Rattle.std.specs.Prelude.{◌≡◌};
ghost use Rattle.bosh_lines.specs.Words.{fate_of, lost_of, others_of, when_of};

use bosh_fates::Fate;
use bosh_line_words::Place;

/// Whether a trap stops the session before a call or an append, or after it.
#[derive(Clone, Copy, Debug, PartialEq, Eq)]
pub enum When {
    Before,
    After,
}

/// What becomes of the other open calls at a stop.
#[derive(Clone, Copy, Debug, PartialEq, Eq)]
pub enum Others {
    /// None of them takes effect.
    Undone,
    /// All of them take effect.
    Done,
}

/// What is lost of a machine.
#[derive(Clone, Copy, Debug, PartialEq, Eq)]
pub enum Lost {
    /// The whole machine.
    Vm,
    /// Its agent, which falls silent.
    Agent,
}

/// `lose` or `late`.
#[derive(Clone, Copy)]
pub(crate) struct FateWord(pub(crate) Fate);

/// `store`.
#[derive(Clone, Copy)]
pub(crate) struct Store;

/// `--orphaned`.
#[derive(Clone, Copy)]
pub(crate) struct Orphaned;

/// `--all`.
#[derive(Clone, Copy)]
pub(crate) struct All;

fn fate_of(text: &[u8]) -> Option<Fate>
    ensures { result ≡ fate_of text.now }
{
    if text == b"lose".as_slice() {
        Some(Fate::Lose)
    } else if text == b"late".as_slice() {
        Some(Fate::Late)
    } else {
        None
    }
}

fn when_of(text: &[u8]) -> Option<When>
    ensures { result ≡ when_of text.now }
{
    if text == b"before".as_slice() {
        Some(When::Before)
    } else if text == b"after".as_slice() {
        Some(When::After)
    } else {
        None
    }
}

fn others_of(text: &[u8]) -> Option<Others>
    ensures { result ≡ others_of text.now }
{
    if text == b"none".as_slice() {
        Some(Others::Undone)
    } else if text == b"all".as_slice() {
        Some(Others::Done)
    } else {
        None
    }
}

fn lost_of(text: &[u8]) -> Option<Lost>
    ensures { result ≡ lost_of text.now }
{
    if text == b"vm".as_slice() {
        Some(Lost::Vm)
    } else if text == b"agent".as_slice() {
        Some(Lost::Agent)
    } else {
        None
    }
}

impl<'a> Place<'a> for FateWord {
    ghost use Rattle.std.specs.Prelude.{◌≡◌, Some, is_some};
    ghost use Rattle.bosh_lines.specs.Words.{fate_of};

    ghost fits = { λ text. is_some (fate_of text) };

    ghost reads = { λ text word. fate_of text ≡ Some word.0 };

    fn read(text: &'a [u8]) -> Option<Self> {
        match fate_of(text) {
            Some(fate) => Some(FateWord(fate)),
            None => None,
        }
    }
}

impl<'a> Place<'a> for When {
    ghost use Rattle.std.specs.Prelude.{◌≡◌, Some, is_some};
    ghost use Rattle.bosh_lines.specs.Words.{when_of};

    ghost fits = { λ text. is_some (when_of text) };

    ghost reads = { λ text when. when_of text ≡ Some when };

    fn read(text: &'a [u8]) -> Option<Self> {
        when_of(text)
    }
}

impl<'a> Place<'a> for Others {
    ghost use Rattle.std.specs.Prelude.{◌≡◌, Some, is_some};
    ghost use Rattle.bosh_lines.specs.Words.{others_of};

    ghost fits = { λ text. is_some (others_of text) };

    ghost reads = { λ text others. others_of text ≡ Some others };

    fn read(text: &'a [u8]) -> Option<Self> {
        others_of(text)
    }
}

impl<'a> Place<'a> for Lost {
    ghost use Rattle.std.specs.Prelude.{◌≡◌, Some, is_some};
    ghost use Rattle.bosh_lines.specs.Words.{lost_of};

    ghost fits = { λ text. is_some (lost_of text) };

    ghost reads = { λ text lost. lost_of text ≡ Some lost };

    fn read(text: &'a [u8]) -> Option<Self> {
        lost_of(text)
    }
}

impl<'a> Place<'a> for Store {
    ghost use Rattle.std.specs.Prelude.{◌≡◌};
    ghost use Rattle.bosh_lines.specs.Words.{is_store};

    ghost fits = { is_store };

    ghost reads = { λ text _. Unit {0} };

    fn read(text: &'a [u8]) -> Option<Self> {
        if text == b"store".as_slice() {
            Some(Store)
        } else {
            None
        }
    }
}

impl<'a> Place<'a> for Orphaned {
    ghost use Rattle.std.specs.Prelude.{◌≡◌};
    ghost use Rattle.bosh_lines.specs.Words.{is_orphaned};

    ghost fits = { is_orphaned };

    ghost reads = { λ text _. Unit {0} };

    fn read(text: &'a [u8]) -> Option<Self> {
        if text == b"--orphaned".as_slice() {
            Some(Orphaned)
        } else {
            None
        }
    }
}

impl<'a> Place<'a> for All {
    ghost use Rattle.std.specs.Prelude.{◌≡◌};
    ghost use Rattle.bosh_lines.specs.Words.{is_all};

    ghost fits = { is_all };

    ghost reads = { λ text _. Unit {0} };

    fn read(text: &'a [u8]) -> Option<Self> {
        if text == b"--all".as_slice() {
            Some(All)
        } else {
            None
        }
    }
}
