// What a statement does to the place (sources/specs/Placing.antt, `does`).
ghost use Rattle.std.specs.Prelude.{◌≡◌};
ghost use Rattle.codes.specs.Marks.{free};
ghost use Rattle.sources.specs.Placing.{does};
ghost use Rattle.sources.specs.declared.Gives.TheVariants.{Start};
ghost use Rattle.placing.specs.Inner.State.{Sound};

use codes::marks::{CODE, DATA, FREE, RESERVED};
use isa::opcodes::operand_count;
use sources::{Act, Gives, Moves};
use statements::Statement;

fn claiming(moves: Moves, n: usize, mark: u8) -> Act
    ensures { result ≡ record { gives = Start; moves = moves; claims = n; mark = mark } }
{
    Act {
        gives: Gives::Start,
        moves,
        claims: n,
        mark,
    }
}

fn moving(gives: Gives, moves: Moves) -> Act
    ensures { result ≡ record { gives = gives; moves = moves; claims = 0; mark = free } }
{
    Act {
        gives,
        moves,
        claims: 0,
        mark: FREE,
    }
}

pub(crate) fn act(s: Statement) -> Act
    ensures { (result ≡ does s) × Sound result.moves result.claims }
{
    match s {
        Statement::Nothing => moving(Gives::Waits, Moves::On(0)),
        Statement::Instruction(op, _, _) => {
            let n = operand_count(op) + 1;
            claiming(Moves::On(n), n, CODE)
        }
        Statement::Org(v) => moving(Gives::Waits, Moves::To(v as usize)),
        Statement::Equ(v) => moving(Gives::Number(v), Moves::On(0)),
        Statement::Res(v) => {
            let n = v as usize;
            claiming(Moves::Reserving(n), n, RESERVED)
        }
        Statement::Data(n) => claiming(Moves::On(n), n, DATA),
        Statement::End => moving(Gives::Start, Moves::On(0)),
    }
}
