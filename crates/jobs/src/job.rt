// What an operation asks for between two decisions of its own: an action, or what is done under a lock.
use hardware::Error;

#[derive(Clone, Copy)]
pub enum Job {
    // register
    Read(u32),
    // register, value
    Write(u32, u32),
    // microseconds
    Wait(u32),
    // hostif.rs's `command`: how many words, the first of the host block
    Command(usize),
    // PHY, device, register
    ReadReg(u32, u32, u16),
    // a list under one hold: PHY, how many pairs; they are the first words behind the host block
    ReadList(u32, u8),
    // PHY, device, register, value
    WriteReg(u32, u32, u16, u16),
    // address
    KrRead(u32),
    // with the value
    KrWrite(u32, u32),
    // nvm_word
    NvmWord(u16),
}

// The end of a job, whose answer is a word (0 where it gives nothing), or of an operation: the answer, and how many words of the
// host block belong to it.
#[derive(Clone, Copy)]
pub struct Ended<A> {
    pub answer: Result<A, Error>,
    pub words: usize,
}
