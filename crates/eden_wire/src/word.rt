ghost use Rattle.std.specs.Prelude.{◌≡◌, ◌≢◌, MatchOption};
ghost use Rattle.eden_wire.specs.Words.{request_word_text, shape_of};
ghost use Rattle.eden_wire.specs.declared.word.Word.{Word};

/// What a field of a line may be.
#[derive(Clone, Copy)]
pub(crate) enum Sort {
    /// A path.
    Path,
    /// A number below 2^64.
    Number,
    /// `0` or `1`.
    Bit,
    /// Bytes, or `-` for none.
    Data,
    /// A name, or `-` for none.
    After,
}

/// The first word of a line, which says what is asked.
#[derive(Clone, Copy)]
pub(crate) enum Word {
    /// `kind`
    Kind,
    /// `stat`
    Stat,
    /// `read`
    Read,
    /// `readlink`
    ReadLink,
    /// `list`
    List,
    /// `write`
    Write,
    /// `truncate`
    Truncate,
    /// `create`
    Create,
    /// `setexec`
    SetExec,
    /// `mkdir`
    Mkdir,
    /// `symlink`
    Symlink,
    /// `unlink`
    Unlink,
    /// `rmdir`
    Rmdir,
    /// `rename`
    Rename,
}

/// All words.
const WORDS: &[Word] = &[
    Word::Kind,
    Word::Stat,
    Word::Read,
    Word::ReadLink,
    Word::List,
    Word::Write,
    Word::Truncate,
    Word::Create,
    Word::SetExec,
    Word::Mkdir,
    Word::Symlink,
    Word::Unlink,
    Word::Rmdir,
    Word::Rename,
];

/// The word that is spelled so.
pub(crate) fn read_word(text: &[u8]) -> Option<Word>
    ensures { MatchOption result ((w : Word) → text.now ≢ request_word_text w) (λ w. text.now ≡ request_word_text w) }
{
    'words: for word in WORDS {
        if text == word.text() {
            return Some(*word);
        }
    }
    None
}

impl Word {
    /// How it is spelled.
    pub(crate) fn text(self) -> &'static [u8]
        ensures { result.now ≡ request_word_text self }
    {
        match self {
            Word::Kind => b"kind",
            Word::Stat => b"stat",
            Word::Read => b"read",
            Word::ReadLink => b"readlink",
            Word::List => b"list",
            Word::Write => b"write",
            Word::Truncate => b"truncate",
            Word::Create => b"create",
            Word::SetExec => b"setexec",
            Word::Mkdir => b"mkdir",
            Word::Symlink => b"symlink",
            Word::Unlink => b"unlink",
            Word::Rmdir => b"rmdir",
            Word::Rename => b"rename",
        }
    }

    /// The sorts of the fields behind it.
    pub(crate) fn shape(self) -> &'static [Sort]
        ensures { result.now ≡ shape_of self }
    {
        match self {
            Word::Read => &[Sort::Path, Sort::Number, Sort::Number],
            Word::List => &[Sort::Path, Sort::After, Sort::Number],
            Word::Write => &[Sort::Path, Sort::Number, Sort::Data],
            Word::Truncate => &[Sort::Path, Sort::Number],
            Word::SetExec => &[Sort::Path, Sort::Bit],
            Word::Symlink => &[Sort::Path, Sort::Data],
            Word::Rename => &[Sort::Path, Sort::Path],
            Word::Kind
            | Word::Stat
            | Word::ReadLink
            | Word::Create
            | Word::Mkdir
            | Word::Unlink
            | Word::Rmdir => &[Sort::Path],
        }
    }
}
