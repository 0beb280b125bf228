// What every call shares: its answer, and the bytes of a file (document 01, "Records" and "Refusal numbers").
#![tactic(auto)]

ghost use Rattle.std.specs.Prelude.{◌≡◌, ◌≤◌, length, take};
ghost use Rattle.std.specs.Io.KnownBytes.{Consumes};
ghost use Rattle.verdict.specs.File.{byte_at, word_at, counting, bytes_verdict};
ghost use Rattle.verdict.specs.Output.{zeros};
ghost use Rattle.verdict.specs.Refusal.{said, said_by_number, number_of, refusal_at};

use std::io::Read;

// What a refusal is given for. As a number each is the one of document 01.
#[derive(Clone, Copy, Debug, PartialEq, Eq)]
pub enum Fault {
    WrongLength = 1,
    TooMany = 2,
    WrongField = 3,
    AddressUsed = 4,
    WrongRegisterSet = 5,
    WrongDefault = 6,
    WrongOp = 7,
    WrongEvent = 8,
    WrongClock = 9,
    NoRoom = 10,
    WrongStep = 11,
    NotSound = 12,
    WrongLogLength = 13,
    WrongLevel = 16,
    WrongText = 18,
}

// Why a call did nothing: the fault, and the record's index from 0.
#[derive(Clone, Copy, Debug, PartialEq, Eq)]
pub struct Refusal {
    pub fault: Fault,
    pub index: usize,
}

impl Fault {
    // The refusal that this fault of the record at an index is.
    pub fn at(self, index: usize) -> Refusal
        ensures { result ≡ refusal_at self index }
    {
        Refusal { fault: self, index }
    }
}

impl From<Fault> for u8 {
    ghost from_gives = { λ fault number. number ≡ number_of fault };

    fn from(fault: Fault) -> u8 {
        fault as u8
    }
}

// A file's byte; past the end it reads 0.
pub fn byte_at(file: &[u8], i: usize) -> u8
    ensures { result ≡ byte_at file.now i }
{
    if i < file.len() { file[i] } else { 0 }
}

// A number of two bytes, high byte first.
pub fn word_at(file: &[u8], i: usize) -> u16
    ensures { result ≡ word_at file.now i }
{
    if i < file.len() {
        u16::from_be_bytes([byte_at(file, i), byte_at(file, i + 1)])
    } else {
        0
    }
}

// How many records of a size a file has: 1 where it is no whole number of them, 2 where there are more than `most`. Of size 0 there
// are none.
pub fn count_records(file: &[u8], size: usize, most: usize) -> Result<usize, Refusal>
    ensures { said result ≡ counting size most file.now }
{
    if size == 0 {
        return Ok(0);
    }
    if file.len() % size != 0 {
        return Err(Fault::WrongLength.at(0));
    }
    let count = file.len() / size;
    if most < count {
        return Err(Fault::TooMany.at(0));
    }
    Ok(count)
}

// The checks of a file of single bytes: not over `most` of them, and none over `largest`, which `number` refuses; 0 refuses none. It may be a
// number that no fault has, so what refuses is said by its number too, beside the index.
pub fn check_bytes(file: &[u8], most: usize, largest: u8, number: u8) -> Result<usize, (u8, usize)>
    ensures { said_by_number result ≡ bytes_verdict most largest number file.now }
{
    let count = match count_records(file, 1, most) {
        Ok(count) => count,
        Err(refusal) => return Err((u8::from(refusal.fault), refusal.index)),
    };
    for (k, byte) in file.iter().enumerate() {
        let fault = if largest < *byte { number } else { 0 };
        if fault != 0 {
            return Err((fault, k));
        }
    }
    Ok(count)
}

// The same checks where the number is a fault's, so that what refuses is a fault.
pub fn check_bytes_for(
    file: &[u8],
    most: usize,
    largest: u8,
    fault: Fault,
) -> Result<usize, Refusal>
    ensures { said result ≡ bytes_verdict most largest (number_of fault) file.now }
{
    let wrong = u8::from(fault);
    match check_bytes(file, most, largest, wrong) {
        Ok(count) => Ok(count),
        Err((number, index)) if number == wrong => Err(fault.at(index)),
        Err((_, index)) => Err(Fault::TooMany.at(index)),
    }
}

// Room for an output: zeros. A buffer of some thousand bytes is then one word of a proof, `zeros`, and not a list.
#[tactic(auto, unfolding(crate::specs::Output::zeros))]
pub fn zeroed<const N: usize>() -> [u8; N]
    ensures long { N ≡ length result }
    ensures zeros { result ≡ zeros N }
{
    [0; N]
}

// What one read puts at the buffer's start: nothing at the input's end, nor where it fails.
fn read_some<R: Read>(reader: &mut R, buffer: &mut [u8]) -> usize
    ensures within { result ≤ length buffer.new }
    ensures bytes { Consumes (R.remaining reader.old) (R.remaining reader.new) (take result buffer.new) }
{
    reader.read(buffer).unwrap_or(0)
}

// Reads until the buffer is full, the input ends or a read fails, and hands back the part of the buffer that it filled: what the
// input lost, byte for byte.
pub fn read_full<'a, R: Read>(reader: &mut R, buffer: &'a mut [u8]) -> &'a [u8]
    ensures within { length result.now ≤ length buffer.old }
    ensures bytes { Consumes (R.remaining reader.old) (R.remaining reader.new) result.now }
{
    let mut done = 0;
    while done < buffer.len() {
        let more = read_some(reader, &mut buffer[done..]);
        if more == 0 {
            break;
        }
        done += more;
    }
    &buffer[..done]
}
