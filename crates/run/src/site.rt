//! What a step at an EIP takes from the code alone, so that it can be kept from one step to the next.
ghost use Rattle.std.specs.Prelude.{◌≡◌};
ghost use Rattle.run.specs.Sites.{site_of, Keeps};

use blockcheck::CODE;
use effect::Stop;
use grammar::instruction::Fault;
use grammar::reader::read;
use plan::Plan;

/// A block that returns here has ended.
const HOME: u32 = 0xFFFF_0000;

/// The plan of the instruction at an EIP.
#[derive(Clone, Copy)]
pub struct Site {
    pub eip: u32,
    pub plan: Plan,
}

/// What stands at an EIP: the tests for 1 to 4 in their order, and then the plan of the instruction.
#[tactic(auto, unfolding(crate::specs::Sites::site_of, crate::specs::Sites::plan_in, crate::specs::Steps::home, crate::specs::Steps::inside, blockcheck::specs::Blocks::code_base))]
pub fn site_at(code: &[u8], eip: u32) -> Result<Plan, Stop>
    ensures { result ≡ site_of code.now eip }
{
    if eip == HOME {
        return Err(Stop::Home);
    }
    let at = eip.checked_sub(CODE).ok_or(Stop::OutsideCode)? as usize;
    if at >= code.len() {
        return Err(Stop::OutsideCode);
    }
    match read(code, at) {
        Ok(decoded) => Ok(plan::plan_of(eip, decoded)),
        // Here alone, so by hand: `From` would be no shorter.
        Err(Fault::Cut) => Err(Stop::Cut),
        Err(Fault::Unknown) => Err(Stop::Unknown),
    }
}

/// The same, where plans are kept by EIP modulo 64.
#[inline(always)]
pub fn plan_at(code: &[u8], kept: &mut [Option<Site>; 64], eip: u32) -> Result<Plan, Stop>
    requires { Keeps code.now kept.old }
    ensures plan { result ≡ site_of code.now eip }
    ensures kept { Keeps code.now kept.new }
{
    // The plan by value: handed by reference, with the step written out twice, each step takes a quarter longer.
    let slot = (eip % 64) as usize;
    if let Some(site) = &kept[slot] {
        if site.eip == eip {
            return Ok(site.plan);
        }
    }
    let plan = site_at(code, eip)?;
    kept[slot] = Some(Site { eip, plan });
    Ok(plan)
}
