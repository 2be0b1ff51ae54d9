//! The words that lines begin with.

ghost use Rattle.std.specs.Prelude.{◌≡◌, ℕ, List};
ghost use Rattle.rfb_session.specs.declared.drive.keyword.Keyword.{Keyword};
ghost use Rattle.rfb_session.specs.drive.Keywords.{keyword_named, looked_up};
ghost use Rattle.rfb_session.specs.drive.Tables.{entries as names};

/// What a line asks for, by its first word.
#[derive(Clone, Copy, Debug, PartialEq, Eq)]
pub enum Keyword {
    Key,
    Down,
    Up,
    Text,
    Move,
    Click,
    Double,
    Drag,
    Wheel,
    Paste,
    PasteFile,
    Save,
    Expect,
    Still,
    Wait,
    UntilChange,
    Timeout,
}

const KEYWORDS: [(&[u8], Keyword); 17] = [
    (b"key", Keyword::Key),
    (b"down", Keyword::Down),
    (b"up", Keyword::Up),
    (b"type", Keyword::Text),
    (b"move", Keyword::Move),
    (b"click", Keyword::Click),
    (b"double", Keyword::Double),
    (b"drag", Keyword::Drag),
    (b"wheel", Keyword::Wheel),
    (b"paste", Keyword::Paste),
    (b"paste-file", Keyword::PasteFile),
    (b"save", Keyword::Save),
    (b"expect", Keyword::Expect),
    (b"still", Keyword::Still),
    (b"wait", Keyword::Wait),
    (b"until-change", Keyword::UntilChange),
    (b"timeout", Keyword::Timeout),
];

/// The keyword that a word is, if it is one.
pub fn read_keyword(word: &[u8]) -> Option<Keyword>
    ensures { result ≡ keyword_named word.now }
{
    keyword_in(&KEYWORDS, word)
}

// The keyword of the first entry with that name.
fn keyword_in(mut table: &[(&[u8], Keyword)], word: &[u8]) -> Option<Keyword>
    ensures { result ≡ looked_up (names table.entry.now) word.now }
{
    while let [entry, rest @ ..] = table {
        if entry.0 == word {
            return Some(entry.1);
        }
        table = rest;
    }
    None
}

/// Each keyword is that of some word.
pub fn each_keyword_has_a_word()
    ensures { (keyword : Keyword) → (word : List ℕ) × (keyword_named word ≡ Some keyword) }
{}
