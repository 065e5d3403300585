//! Texts, which are copied into room that C gives.
ghost use Rattle.std.specs.Prelude.{◌≡◌, IsTrue, IsUtf8};
ghost use Rattle.std.specs.Str.{is_utf8};
ghost use Rattle.host_library.specs.Texts.{TextTold};

/// Copies the front of a text into a room, as much as has place, and gives the length of the whole text.
pub fn copy_text(text: &[u8], room: &mut [u8]) -> usize
    ensures { TextTold text.now room.old result room.new }
{
    let count = text.len().min(room.len());
    room[..count].copy_from_slice(&text[..count]);
    text.len()
}

/// Whether these bytes are UTF-8.
pub fn is_utf8(bytes: &[u8]) -> bool
    ensures test { result ≡ is_utf8 bytes.now }
    ensures text { IsTrue result → IsUtf8 bytes.now }
{
    match str::from_utf8(bytes) {
        Ok(_) => true,
        Err(_) => false,
    }
}
