// The parameter block (crate block).
ghost use Rattle.std.specs.Prelude.{◌≡◌};
ghost use Rattle.block.specs.Rules.{judged};
ghost use Rattle.export.specs.Told.{told_of};

use crate::signatures::engine_of;
use answer::Refusal;
use block::Params;

// A block's answer in numbers, its offset, and the parameters, which are zeros in a refusal.
#[repr(C)]
#[derive(Clone, Copy)]
pub struct BlockAnswer {
    pub params: Params,
    pub number: u8,
    pub offset: u8,
    pub unused: [u8; 2],
}

impl From<Result<Params, Refusal>> for BlockAnswer {
    ghost from_gives = { λ j t. t ≡ told_of j };

    fn from(judged: Result<Params, Refusal>) -> BlockAnswer {
        BlockAnswer {
            number: answer::number(judged),
            offset: answer::offset(judged),
            params: judged.unwrap_or(block::no_params()),
            unused: [0; 2],
        }
    }
}

#[unsafe(no_mangle)]
pub extern "C" fn whakelouna_judge_block(shift: bool, octets: &[u8], port: u8) -> BlockAnswer
    ensures { result ≡ told_of (judged octets.now port) }
{
    BlockAnswer::from(block::judge(engine_of(shift), octets, port))
}
