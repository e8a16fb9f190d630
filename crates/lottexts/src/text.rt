// Bytes in memory of their own.
ghost use Rattle.std.specs.Prelude.{◌≡◌, ◌+◌, ◌-◌, ◌≤◌, ◌↔◌, [], ◌++◌, length, drop, replicate, IsOk, OnOk, OnErr};

// There was no room for all of the bytes.
#[derive(Clone, Copy, PartialEq, Eq, Debug)]
pub struct Full;

// At most ROOM bytes, and zeros in the unused places. What holds one can be copied: the kit's ArrayVec cannot.
#[derive(Clone, Copy)]
pub struct Text<const ROOM: usize> {
    len: usize,
    bytes: [u8; ROOM],
    ghost fits: { len ≤ ROOM },
    ghost whole: { length bytes ≡ ROOM },
    ghost unused: { drop len bytes ≡ replicate (ROOM - len) 0 },
}

impl<const ROOM: usize> Text<ROOM> {
    ghost use Rattle.lottexts.specs.Texts.{text_of};

    pub fn new() -> Self
        ensures { text_of result ≡ [] }
    {
        Text {
            len: 0,
            bytes: [0; ROOM],
        }
    }

    pub fn as_slice(&self) -> &[u8]
        ensures value { result.now ≡ text_of self.now }
        ensures fits { length result.now ≤ ROOM }
    {
        &self.bytes[..self.len]
    }

    // More bytes at the end, for which there is room.
    pub(crate) fn extend(&mut self, more: &[u8])
        requires { length (text_of self.old) + length more.now ≤ ROOM }
        ensures bytes { text_of self.new ≡ text_of self.old ++ more.now }
        ensures len { length (text_of self.new) ≡ length (text_of self.old) + length more.now }
    {
        let end = self.len + more.len();
        let places = &mut self.bytes[..];
        places[self.len..end].copy_from_slice(more);
        self.len = end;
    }

    // All of the bytes at the end, or none of them where there is no room for all.
    pub fn try_extend(&mut self, more: &[u8]) -> Result<(), Full>
        ensures variant { IsOk result ↔ (length (text_of self.old) + length more.now ≤ ROOM) }
        ensures ok { OnOk result (text_of self.new ≡ text_of self.old ++ more.now) }
        ensures err { OnErr result (self.new ≡ self.old) }
    {
        if more.len() > ROOM - self.len {
            return Err(Full);
        }
        self.extend(more);
        Ok(())
    }
}
