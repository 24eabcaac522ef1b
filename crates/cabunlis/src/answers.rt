// Results as a C host is told them: a refusal is its number, and 0 is none.
ghost use Rattle.std.specs.Prelude.{◌≡◌};
ghost use Rattle.bits.specs.Refusals.{answer_of, refused_by};
ghost use Rattle.cabunlis.specs.Host.{host_bytes};

use bits::refusal::Refusal;

// What a call answers that counts bytes: a refusal's number and no bytes, or 0 and the bytes.
#[repr(C)]
#[derive(Drop)]
pub struct HostBytes {
    pub refusal: u32,
    pub bytes: usize,
}

pub fn bytes_told(bytes: Result<usize, Refusal>) -> HostBytes
    ensures { result ≡ host_bytes (answer_of bytes) }
{
    match bytes {
        Ok(bytes) => HostBytes { refusal: 0, bytes },
        Err(refusal) => HostBytes {
            refusal: refusal.number() as u32,
            bytes: 0,
        },
    }
}

// The number of a call that answers nothing else.
pub fn refusal_told(done: Result<(), Refusal>) -> u32
    ensures { result ≡ refused_by done }
{
    match done {
        Ok(()) => 0,
        Err(refusal) => refusal.number() as u32,
    }
}
