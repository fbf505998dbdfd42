ghost use Rattle.std.specs.Prelude.{◌≡◌};
ghost use Rattle.lsv_mask.specs.Masking.{ends_line, is_end, starred};

use lsv_base::Bytes;
use memchr::memchr2;

/// Whether a byte ends a line that is typed.
fn is_end(byte: u8) -> bool
    ensures { result ≡ is_end byte }
{
    byte == b'\n' || byte == b'\r'
}

/// Whether what was typed ends its line.
pub fn ends_line(typed: &[u8]) -> bool
    ensures { result ≡ ends_line typed.now }
{
    typed.iter().any(|byte| is_end(*byte))
}

/// Writes a star over each byte before the first that ends the line, and says whether one ends it.
pub fn star(typed: &mut Bytes) -> bool
    ensures starred { typed.new ≡ starred typed.old }
    ensures ends { result ≡ ends_line typed.old }
{
    match memchr2(b'\n', b'\r', typed.as_slice()) {
        Some(end) => {
            typed.fill_front(end, b'*');
            true
        }
        None => {
            let all = typed.as_slice().len();
            typed.fill_front(all, b'*');
            false
        }
    }
}
