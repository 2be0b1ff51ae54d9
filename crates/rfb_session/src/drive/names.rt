//! The names of keys, in tables.

ghost use Rattle.std.specs.Prelude.{◌≡◌};
ghost use Rattle.std.specs.Str.{str_eq_ignore_ascii_case};
ghost use Rattle.rfb_session.specs.drive.KeyNames.{StandOnce, key_names, looked_up};
ghost use Rattle.rfb_session.specs.drive.Tables.{entries};

// Keys that edit, as they lie above and beside the letters.
const EDITING: [(&[u8], u32); 13] = [
    (b"BackSpace", 0xFF08),
    (b"Tab", 0xFF09),
    (b"Linefeed", 0xFF0A),
    (b"Clear", 0xFF0B),
    (b"Return", 0xFF0D),
    (b"Enter", 0xFF0D),
    (b"Pause", 0xFF13),
    (b"Scroll_Lock", 0xFF14),
    (b"Sys_Req", 0xFF15),
    (b"Escape", 0xFF1B),
    (b"Esc", 0xFF1B),
    (b"Delete", 0xFFFF),
    (b"Del", 0xFFFF),
];

// Keys that move, and those beside them.
const MOVING: [(&[u8], u32); 25] = [
    (b"Home", 0xFF50),
    (b"Left", 0xFF51),
    (b"Up", 0xFF52),
    (b"Right", 0xFF53),
    (b"Down", 0xFF54),
    (b"Page_Up", 0xFF55),
    (b"Prior", 0xFF55),
    (b"Page_Down", 0xFF56),
    (b"Next", 0xFF56),
    (b"End", 0xFF57),
    (b"Begin", 0xFF58),
    (b"Select", 0xFF60),
    (b"Print", 0xFF61),
    (b"Execute", 0xFF62),
    (b"Insert", 0xFF63),
    (b"Ins", 0xFF63),
    (b"Undo", 0xFF65),
    (b"Redo", 0xFF66),
    (b"Menu", 0xFF67),
    (b"Find", 0xFF68),
    (b"Cancel", 0xFF69),
    (b"Help", 0xFF6A),
    (b"Break", 0xFF6B),
    (b"Mode_switch", 0xFF7E),
    (b"Num_Lock", 0xFF7F),
];

// Function keys.
const FUNCTION: [(&[u8], u32); 24] = [
    (b"F1", 0xFFBE),
    (b"F2", 0xFFBF),
    (b"F3", 0xFFC0),
    (b"F4", 0xFFC1),
    (b"F5", 0xFFC2),
    (b"F6", 0xFFC3),
    (b"F7", 0xFFC4),
    (b"F8", 0xFFC5),
    (b"F9", 0xFFC6),
    (b"F10", 0xFFC7),
    (b"F11", 0xFFC8),
    (b"F12", 0xFFC9),
    (b"F13", 0xFFCA),
    (b"F14", 0xFFCB),
    (b"F15", 0xFFCC),
    (b"F16", 0xFFCD),
    (b"F17", 0xFFCE),
    (b"F18", 0xFFCF),
    (b"F19", 0xFFD0),
    (b"F20", 0xFFD1),
    (b"F21", 0xFFD2),
    (b"F22", 0xFFD3),
    (b"F23", 0xFFD4),
    (b"F24", 0xFFD5),
];

// Keys that are held while others go down; a name without a side is the left one.
const HOLDING: [(&[u8], u32); 21] = [
    (b"Shift_L", 0xFFE1),
    (b"Shift", 0xFFE1),
    (b"Shift_R", 0xFFE2),
    (b"Control_L", 0xFFE3),
    (b"Control", 0xFFE3),
    (b"Ctrl", 0xFFE3),
    (b"Control_R", 0xFFE4),
    (b"Caps_Lock", 0xFFE5),
    (b"Shift_Lock", 0xFFE6),
    (b"Meta_L", 0xFFE7),
    (b"Meta", 0xFFE7),
    (b"Meta_R", 0xFFE8),
    (b"Alt_L", 0xFFE9),
    (b"Alt", 0xFFE9),
    (b"Alt_R", 0xFFEA),
    (b"Super_L", 0xFFEB),
    (b"Super", 0xFFEB),
    (b"Super_R", 0xFFEC),
    (b"Hyper_L", 0xFFED),
    (b"Hyper_R", 0xFFEE),
    (b"ISO_Level3_Shift", 0xFE03),
];

// Keys of the keypad.
const KEYPAD: [(&[u8], u32); 37] = [
    (b"KP_Space", 0xFF80),
    (b"KP_Tab", 0xFF89),
    (b"KP_Enter", 0xFF8D),
    (b"KP_F1", 0xFF91),
    (b"KP_F2", 0xFF92),
    (b"KP_F3", 0xFF93),
    (b"KP_F4", 0xFF94),
    (b"KP_Home", 0xFF95),
    (b"KP_Left", 0xFF96),
    (b"KP_Up", 0xFF97),
    (b"KP_Right", 0xFF98),
    (b"KP_Down", 0xFF99),
    (b"KP_Page_Up", 0xFF9A),
    (b"KP_Prior", 0xFF9A),
    (b"KP_Page_Down", 0xFF9B),
    (b"KP_Next", 0xFF9B),
    (b"KP_End", 0xFF9C),
    (b"KP_Begin", 0xFF9D),
    (b"KP_Insert", 0xFF9E),
    (b"KP_Delete", 0xFF9F),
    (b"KP_Multiply", 0xFFAA),
    (b"KP_Add", 0xFFAB),
    (b"KP_Separator", 0xFFAC),
    (b"KP_Subtract", 0xFFAD),
    (b"KP_Decimal", 0xFFAE),
    (b"KP_Divide", 0xFFAF),
    (b"KP_0", 0xFFB0),
    (b"KP_1", 0xFFB1),
    (b"KP_2", 0xFFB2),
    (b"KP_3", 0xFFB3),
    (b"KP_4", 0xFFB4),
    (b"KP_5", 0xFFB5),
    (b"KP_6", 0xFFB6),
    (b"KP_7", 0xFFB7),
    (b"KP_8", 0xFFB8),
    (b"KP_9", 0xFFB9),
    (b"KP_Equal", 0xFFBD),
];

// What a keyboard has beside letters and digits; its number is its character.
const MARKS: [(&[u8], u32); 33] = [
    (b"space", 0x0020),
    (b"exclam", 0x0021),
    (b"quotedbl", 0x0022),
    (b"numbersign", 0x0023),
    (b"dollar", 0x0024),
    (b"percent", 0x0025),
    (b"ampersand", 0x0026),
    (b"apostrophe", 0x0027),
    (b"parenleft", 0x0028),
    (b"parenright", 0x0029),
    (b"asterisk", 0x002A),
    (b"plus", 0x002B),
    (b"comma", 0x002C),
    (b"minus", 0x002D),
    (b"period", 0x002E),
    (b"slash", 0x002F),
    (b"colon", 0x003A),
    (b"semicolon", 0x003B),
    (b"less", 0x003C),
    (b"equal", 0x003D),
    (b"greater", 0x003E),
    (b"question", 0x003F),
    (b"at", 0x0040),
    (b"bracketleft", 0x005B),
    (b"backslash", 0x005C),
    (b"bracketright", 0x005D),
    (b"asciicircum", 0x005E),
    (b"underscore", 0x005F),
    (b"grave", 0x0060),
    (b"braceleft", 0x007B),
    (b"bar", 0x007C),
    (b"braceright", 0x007D),
    (b"asciitilde", 0x007E),
];

/// The key that a table names so, whatever the case of its letters.
pub fn key_named(name: &[u8]) -> Option<u32>
    ensures { result ≡ looked_up key_names name.now }
{
    key_in(&EDITING, name)
        .or(key_in(&MOVING, name))
        .or(key_in(&FUNCTION, name))
        .or(key_in(&HOLDING, name))
        .or(key_in(&KEYPAD, name))
        .or(key_in(&MARKS, name))
}

// The key of the first entry with that name.
fn key_in(mut table: &[(&[u8], u32)], name: &[u8]) -> Option<u32>
    ensures { result ≡ looked_up (entries table.entry.now) name.now }
{
    while let [entry, rest @ ..] = table {
        if same_name(entry.0, name) {
            return Some(entry.1);
        }
        table = rest;
    }
    None
}

// Whether two names are the same but for the case of their letters.
fn same_name(a: &[u8], b: &[u8]) -> bool
    ensures { result ≡ str_eq_ignore_ascii_case a.now b.now }
{
    a.eq_ignore_ascii_case(b)
}

/// No two entries of the tables have the same name, whatever the case of its letters.
pub fn each_name_stands_once()
    ensures { StandOnce key_names }
{}
