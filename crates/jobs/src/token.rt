// hostif.rs's `token`: a command of two words. It takes the first two places of the lent block.
ghost use Rattle.std.specs.Prelude.{◌≡◌, take};
ghost use Rattle.hardware.specs.Talk.{end};
ghost use Rattle.reference.specs.Hostif.{token_status};
ghost use Rattle.jobs.specs.List.{list_of};
ghost use Rattle.jobs.specs.Token.{token_words, token_got};

use hardware::Error;

// Ask for it, or give it back.
#[derive(Clone, Copy)]
pub struct Token {
    pub take: bool,
}

impl Token {
    pub const COMMAND: u8 = 0x0a;

    pub const OK: u8 = 0x01;

    pub const BUSY: u8 = 0x80;

    // header(TOKEN_COMMAND, 2)
    pub const HEADER: u32 = 0xff00_020a;

    // what the second word has beside the lan where the token is given back
    pub const GIVE: u32 = 0x100;

    // Busy is an answer where it was asked for.
    #[tactic(auto, unfolding(reference::specs::Hostif::token_status))]
    fn status(self, status: u8) -> Result<bool, Error>
        ensures { token_status self.take status ≡ end result }
    {
        if status == Token::OK {
            return Ok(true);
        }
        if status == Token::BUSY {
            if self.take {
                return Ok(false);
            }
        }
        Err(Error::Firmware {
            command: Token::COMMAND,
            status,
        })
    }

    // What a command of it gave.
    pub fn answered(self, got: Result<u32, Error>) -> Result<bool, Error>
        ensures { token_got self.take got ≡ end result }
    {
        let status = got?;
        self.status((status % 256) as u8)
    }

    // The command's two words.
    #[tactic(auto, using(crate::proofs::List::list_kept))]
    pub fn put(self, lan: u32, block: &mut [u32; 80])
        ensures words { take 2 block.new ≡ token_words lan self.take }
        ensures list { list_of block.new ≡ list_of block.old }
    {
        let word = if self.take { lan } else { lan | Token::GIVE };
        block[..2].copy_from_slice(&[Token::HEADER, word]);
    }
}
