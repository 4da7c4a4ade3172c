//! The words that the program hands to other calls than the run of a command or a session, in one table. None of them runs yet.
ghost use Rattle.std.specs.Prelude.{◌≡◌};
ghost use Rattle.lvm_words.specs.OtherCalls.{arguments_of, call_named, other_calls, spelling_of};

use command_table::Kind;

/// What a command line may ask for beside a command, by its first word behind the pairs `-d NAME`.
#[derive(Clone, Copy, Debug, PartialEq, Eq)]
pub enum OtherCall {
    /// The contents of a volume, to standard output.
    Export,
    /// The contents of a volume, from standard input.
    Import,
    /// A snapshot of a volume, on another one.
    Cow,
    /// A mirror of two volumes, with a log on a third.
    Lmirror,
}

static OTHER_CALLS: [OtherCall; 4] = [
    OtherCall::Export,
    OtherCall::Import,
    OtherCall::Cow,
    OtherCall::Lmirror,
];

static ONE_PATH: [Kind; 1] = [Kind::Path];

static TWO_PATHS: [Kind; 2] = [Kind::Path, Kind::Path];

static THREE_PATHS: [Kind; 3] = [Kind::Path, Kind::Path, Kind::Path];

impl OtherCall {
    /// All of them, in the order in which they are listed to a user.
    pub fn all() -> &'static [OtherCall]
        ensures { result.now ≡ other_calls }
    {
        &OTHER_CALLS
    }

    /// The word that names it.
    pub fn spelling(self) -> &'static str
        ensures { result.now ≡ spelling_of self }
    {
        match self {
            OtherCall::Export => "export",
            OtherCall::Import => "import",
            OtherCall::Cow => "cow",
            OtherCall::Lmirror => "lmirror",
        }
    }

    /// The words that follow its name, as a manual writes them.
    pub fn synopsis(self) -> &'static str {
        match self {
            OtherCall::Export => "VG/LV",
            OtherCall::Import => "VG/LV",
            OtherCall::Cow => "VG/ORIGIN VG/STORE",
            OtherCall::Lmirror => "VG/A VG/B VG/LOG",
        }
    }

    /// What these have to be.
    pub fn arguments(self) -> &'static [Kind]
        ensures { result.now ≡ arguments_of self }
    {
        match self {
            OtherCall::Export | OtherCall::Import => &ONE_PATH,
            OtherCall::Cow => &TWO_PATHS,
            OtherCall::Lmirror => &THREE_PATHS,
        }
    }

    /// The one that a word names.
    pub fn named(word: &[u8]) -> Option<OtherCall>
        ensures { result ≡ call_named word.now }
    {
        OTHER_CALLS
            .iter()
            .copied()
            .find(|call| call.spelling().as_bytes() == word)
    }
}
