ghost use Rattle.std.specs.Prelude.{◌≡◌, ◌++◌, Some};
ghost use Rattle.record.specs.Examples.{refused_with, counts_of};
ghost use Rattle.record.specs.Layout.{number_bytes};
ghost use Rattle.record.specs.Readers.{opening};

use super::reader::Reader;
use fault::Fault;

/// Opens 15 bytes, whatever they are.
pub fn fifteen_bytes_are_refused_with_4_at_0(bytes: &[u8; 15]) -> Option<(u8, Option<usize>)>
    ensures value { result ≡ Some (4, Some 0) }
    ensures from_opening { result ≡ refused_with (opening bytes.now) }
{
    let fault = Reader::open(bytes).err()?;
    Some((fault.number(), fault.byte()))
}

/// Opens the header 2, 0, 16, 16 with nothing behind it, and asks for its places and calls.
pub fn header_2_0_16_16_alone_is_accepted() -> Option<(usize, usize)>
    ensures value { result ≡ Some (2, 0) }
    ensures from_opening { result ≡ counts_of (opening (number_bytes 2 ++ (number_bytes 0 ++ (number_bytes 16 ++ number_bytes 16)))) }
{
    let reader = Reader::open(&[2, 0, 0, 0, 0, 0, 0, 0, 16, 0, 0, 0, 16, 0, 0, 0]).ok()?;
    Some((reader.places(), reader.calls()))
}
