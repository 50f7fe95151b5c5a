//! Whether a text is one line.
ghost use Rattle.std.specs.Prelude.{◌↔◌, IsTrue};
ghost use Rattle.cat_model.specs.Text.{IsOneLine};

use memchr::memchr;

/// Whether the bytes have no line feed.
pub(crate) fn is_one_line(bytes: &[u8]) -> bool
    ensures { IsTrue result ↔ IsOneLine bytes.now }
{
    memchr(b'\n', bytes).is_none()
}
