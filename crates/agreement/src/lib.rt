// What the claims say of calls that are made one after the other, as contracts.
#![tactic(auto)]

ghost use Rattle.std.specs.Prelude.{◌≡◌, true};
ghost use Rattle.laws.specs.Claims.{Readable};

use definition::Refusal;
use measure::string_packsize;
use read::string_unpack;
use write::string_pack;

// Writes a record, and says whether it is as long as its format measures, or measuring gives 10: it is so, always.
pub fn size_agrees(format: &[u8], list: &[u8], out: &mut [u8]) -> bool
    ensures { result ≡ true }
{
    let Ok(written) = string_pack(format, list, out) else {
        return true;
    };
    match string_packsize(format) {
        Err(refusal) => refusal == Refusal::NoFixedSize,
        Ok(size) => size == written,
    }
}

// Writes a record, and says whether it is read back up to its end, or the list buffer is too short: under the premises of reading
// back it is so, always.
pub fn reads_back(format: &[u8], list: &[u8], out: &mut [u8], kept: &mut [u8]) -> bool
    ensures { Readable format.now list.now → result ≡ true }
{
    let Ok(written) = string_pack(format, list, out) else {
        return true;
    };
    match string_unpack(format, out, 1, kept) {
        Err(refusal) => refusal == Refusal::ResultTooLong,
        Ok(read) => read.next.0 == written + 1,
    }
}
