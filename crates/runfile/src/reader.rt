// Reading the fields of a run file. A number of several bytes has its highest byte in front.
ghost use Rattle.std.specs.Prelude.{◌≡◌, ◌^◌, ◌<◌, ◌≤◌, MatchOption, IfSome, IfNone};
ghost use Rattle.std.specs.Int.Digits.{number_from_digits};
ghost use Rattle.runfile.specs.Fields.{Reads, fixed, field, stands};

/// A field of WIDTH bytes: its bit in the map byte, and its number where that bit does not stand.
#[derive(Clone, Copy)]
pub(crate) struct Field<const WIDTH: usize> {
    pub(crate) bit: u8,
    pub(crate) absent: u64,
    ghost narrow: { WIDTH ≤ 8 },
    ghost fits: { absent < 256 ^ WIDTH },
}

/// The fields that are still to be read.
#[derive(Drop)]
pub(crate) struct Reader<'a> {
    /// The map byte: a field is there where its bit stands.
    pub(crate) map: u8,
    /// The bytes from the next field on.
    pub(crate) rest: &'a [u8],
}

impl<'a> Reader<'a> {
    /// A reader of the fields behind the map byte that these bytes begin with.
    pub(crate) fn new(bytes: &'a [u8]) -> Option<Self>
        ensures { MatchOption result (fixed 1 bytes.now ≡ None)
            (λ reader. fixed 1 bytes.now ≡ Some (reader.map, reader.rest.now)) }
    {
        let (&map, rest) = bytes.split_first()?;
        Some(Reader { map, rest })
    }

    /// The number of a field, or its default where it is absent.
    pub(crate) fn number<const WIDTH: usize>(&mut self, which: &Field<WIDTH>) -> Option<u64>
        ensures value { Reads (λ map. field (stands map which.now.bit) WIDTH which.now.absent) self.old result self.new }
        ensures fits { IfSome result (λ number. number < 256 ^ WIDTH) }
        ensures none { IfNone result (self.new ≡ self.old) }
    {
        if self.map & which.bit == 0 {
            return Some(which.absent);
        }
        let (bytes, rest) = self.rest.split_first_chunk::<WIDTH>()?;
        self.rest = rest;
        Some(number_of(bytes))
    }
}

fn number_of<const WIDTH: usize>(bytes: &[u8; WIDTH]) -> u64
    requires { WIDTH ≤ 8 }
    ensures value { result ≡ number_from_digits 256 bytes.now }
    ensures fits { result < 256 ^ WIDTH }
{
    let mut number = 0;
    for byte in bytes {
        number = number * 256 + u64::from(*byte);
    }
    number
}
