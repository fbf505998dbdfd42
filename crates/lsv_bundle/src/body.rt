ghost use Rattle.std.specs.List.{concat};
ghost use Rattle.std.specs.Prelude.{◌≡◌, ◌*◌, length, map};
ghost use Rattle.lsv_bundle.specs.Body.{number, numbers_of, encoded, IsBody};
ghost use Rattle.lsv_bundle.specs.declared.body.Body.{Body};

/// The bytes of an encoded body.
pub const BODY_LENGTH: usize = 89;

/// What an entry of a bundle's journal says.
#[derive(Clone, Copy, Debug, PartialEq, Eq)]
pub struct Body {
    /// 0 made, 1 flushed, 2 cut, 3 complete.
    pub kind: u8,
    /// How many records or lines there are.
    pub count: u64,
    /// Nanoseconds from the start of the log.
    pub elapsed: u64,
    /// How many bytes of each data file are committed, in the order of the shape's parts; the others are 0.
    pub lens: [u64; 8],
    /// What the owner keeps besides.
    pub extra: u64,
}

impl Body {
    /// Its 89 bytes: the kind, and eleven numbers of eight bytes, the most significant first.
    pub fn encode(&self) -> [u8; 89]
        ensures { result ≡ encoded self.now }
    {
        let mut bytes = [0; BODY_LENGTH];
        bytes[0] = self.kind;
        put_numbers(&mut bytes[1..], &self.numbers());
        bytes
    }

    fn numbers(&self) -> [u64; 11]
        ensures { result ≡ numbers_of self.now }
    {
        let [a, b, c, d, e, f, g, h] = self.lens;
        [self.count, self.elapsed, a, b, c, d, e, f, g, h, self.extra]
    }

    /// The body with these numbers.
    pub(crate) fn new(kind: u8, count: u64, elapsed: u64, lens: [u64; 8], extra: u64) -> Self
        ensures is { result ≡ record { kind = kind; count = count; elapsed = elapsed; lens = lens; extra = extra } }
        ensures is_body { IsBody result }
    {
        let [a, b, c, d, e, f, g, h] = lens;
        Body {
            kind,
            count,
            elapsed,
            lens: [a, b, c, d, e, f, g, h],
            extra,
        }
    }

    /// The body with these bytes. Any 89 bytes are those of one.
    pub fn decode(bytes: [u8; 89]) -> Self
        ensures encoded { encoded result ≡ bytes }
        ensures is_body { IsBody result }
    {
        let mut numbers = [0; 11];
        get_numbers(&bytes[1..], &mut numbers);
        let [count, elapsed, a, b, c, d, e, f, g, h, extra] = numbers;
        Body::new(bytes[0], count, elapsed, [a, b, c, d, e, f, g, h], extra)
    }
}

/// Writes the numbers over the bytes.
fn put_numbers(bytes: &mut [u8], numbers: &[u64])
    requires { length bytes.old ≡ 8 * length numbers.now }
    ensures { bytes.new ≡ concat (map number numbers.now) }
{
    let [first, rest @ ..] = numbers else {
        return;
    };
    let (number, later) = bytes.split_at_mut(8);
    number.copy_from_slice(&first.to_be_bytes());
    put_numbers(later, rest);
}

/// Reads the numbers from the bytes.
fn get_numbers(bytes: &[u8], numbers: &mut [u64])
    requires { length bytes.now ≡ 8 * length numbers.old }
    ensures { concat (map number numbers.new) ≡ bytes.now }
{
    if numbers.is_empty() {
        return;
    }
    let (first, rest) = numbers.split_at_mut(1);
    first[0] = get_number(&bytes[..8]);
    get_numbers(&bytes[8..], rest);
}

/// Reads a number from its eight bytes.
fn get_number(bytes: &[u8]) -> u64
    requires { length bytes.now ≡ 8 }
    ensures { number result ≡ bytes.now }
{
    let mut copy = [0; 8];
    copy.copy_from_slice(bytes);
    u64::from_be_bytes(copy)
}
