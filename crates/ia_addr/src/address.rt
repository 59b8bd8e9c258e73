//! The address of an operand in memory.

ghost use Rattle.std.specs.Prelude.{◌≡◌, IsTrue};
ghost use Rattle.ia_insn.specs.Writing.{fits_base, fits_mem};
ghost use Rattle.ia_addr.specs.Address.{part_of, address_of};

use ia_insn::Mem;
use ia_regs::Regs;

/// The address of an operand: base, scaled index and displacement, modulo 2^32 (SDM volume 1, "Specifying an Offset").
#[inline(always)]
#[tactic(auto, unfolding(crate::specs::Address::address_of))]
pub fn address_of(place: &Mem, regs: &Regs) -> u32
    requires { IsTrue (fits_mem place.now) }
    ensures { result ≡ address_of place.now regs.now }
{
    let Mem {
        base,
        index,
        scale,
        disp,
    } = *place;
    let start = u64::from(part(base, regs)) + u64::from(disp);
    let sum = match index {
        None => start,
        Some(number) => start + u64::from(regs.get(number)) * u64::from(scale),
    };
    (sum % 0x1_0000_0000) as u32
}

// What a base or an index gives.
#[inline(always)]
fn part(register: Option<u8>, regs: &Regs) -> u32
    requires { IsTrue (fits_base register) }
    ensures { result ≡ part_of register regs.now }
{
    match register {
        None => 0,
        Some(number) => regs.get(number),
    }
}
