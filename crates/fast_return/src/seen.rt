// What a walk keeps of the record: A7, the three saved pointers, S and M, the last two as 0 or 1.
ghost use Rattle.std.specs.Prelude.{◌≡◌, ◌<◌, length};
ghost use Rattle.fast_return.specs.Seen.{seen, stack_of, bank_of};

use cpu::Cpu;
use unwind::frames::Frame;
use unwind::returns::Stack;

#[derive(Clone, Copy, PartialEq, Eq, Debug)]
pub struct Seen {
    pub a7: u32,
    pub user: u32,
    pub interrupt: u32,
    pub master: u32,
    pub s: u32,
    pub m: u32,
}

// The index of the saved pointer of the stack in use: 0 user, 4 interrupt, 6 master. The 68060 has one supervisor stack. `sp_index` of
// `status` is the same of a record, which there is none of here.
#[tactic(auto, unfolding(crate::specs::Seen::stack_of, types::specs::Kinds::is060))]
fn stack_of(kind: u8, s: u32, m: u32) -> u32
    ensures { result ≡ stack_of kind s m }
{
    if s == 0 {
        0
    } else if kind == types::M68060 || m == 0 {
        4
    } else {
        6
    }
}

// The saved pointer at index i. By choices: a `match` is compiled into jumps, and a walk of 64 was 6,274 instructions for 5,637.
#[tactic(auto, unfolding(crate::specs::Seen::bank_of))]
fn bank_of(i: u32, user: u32, interrupt: u32, master: u32) -> u32
    ensures { result ≡ bank_of i user interrupt master }
{
    let other = if i == 4 { interrupt } else { master };
    if i == 0 { user } else { other }
}

// Of a record: its contract says of the record's arrays what a `From` could not.
impl Seen {
    #[tactic(auto, unfolding(crate::specs::Seen::seen))]
    pub fn of(c: Cpu) -> Self
        ensures { (result ≡ seen c) × (15 < length c.regs.dar) × (7 < length c.regs.sp) }
    {
        Seen {
            a7: c.regs.dar[15],
            user: c.regs.sp[0],
            interrupt: c.regs.sp[4],
            master: c.regs.sp[6],
            s: c.flags.s_flag / 4 % 2,
            m: c.flags.m_flag / 2 % 2,
        }
    }
}

impl Stack for Seen {
    ghost use Rattle.fast_return.specs.Seen.{seen_in_user, take_seen};

    ghost a7 = { λ x. x.a7 };

    ghost in_user = { seen_in_user };

    ghost taken = { take_seen };

    fn a7(&self) -> u32 {
        self.a7
    }

    #[tactic(auto, unfolding(crate::specs::Seen::seen_in_user))]
    fn in_user(&self) -> bool {
        self.s == 0
    }

    #[tactic(auto, unfolding(crate::specs::Seen::take_seen, crate::specs::Seen::saved_seen, crate::specs::Seen::entered_seen))]
    fn taken(&self, kind: u8, f: Frame) -> Self {
        let a = self.a7.wrapping_add(f.size);
        let i = stack_of(kind, self.s, self.m);
        let user = if i == 0 { a } else { self.user };
        let interrupt = if i == 4 { a } else { self.interrupt };
        let master = if i == 6 { a } else { self.master };
        let status = u32::from(types::mask_status(kind, f.status));
        let s = status / 0x2000 % 2;
        let m = status / 0x1000 % 2;
        Seen {
            a7: bank_of(stack_of(kind, s, m), user, interrupt, master),
            user,
            interrupt,
            master,
            s,
            m,
        }
    }
}
