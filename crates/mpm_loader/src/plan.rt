ghost use Rattle.std.specs.Prelude.{◌≡◌, ◌≤◌, ◌<◌, ⊤, Some, None, length, MatchOption, IfOk, OnErr};
ghost use Rattle.mpm_prl.specs.Relocation.{word_at};
ghost use Rattle.mpm_loader.specs.Plans.{relocatable_plan, absolute_plan, plan_of, pages_of, all_bytes as bytes_in_all, IsPlan, HasPlan, FitsIn};

use mpm_prl::{BadHeader, PrlHeader, header};

/// Where in a program's file its code is, and how much memory it wants.
#[derive(Clone, Copy, Debug, PartialEq, Eq)]
pub struct Plan {
    /// How many bytes of the file stand before the code.
    pub start: u32,
    /// How many bytes of code there are.
    pub length: u32,
    /// How many bytes the program wants for its code and after it.
    pub room: u32,
    /// How many bytes follow the code, with a bit for each byte of it.
    pub bits: u32,
}

impl Plan {
    /// That of a page relocatable program, by its header: the code follows 256 bytes, and its bits after it.
    #[tactic(auto, unfolding(crate::specs::Plans::relocatable_plan))]
    pub fn relocatable(header: PrlHeader) -> Plan
        ensures { HasPlan (relocatable_plan header.length header.extra) result }
    {
        let length = u32::from(header.length);
        Plan {
            start: 256,
            length,
            room: length + u32::from(header.extra),
            bits: (length + 7) / 8,
        }
    }

    /// That of a program for page 0, whose file is nothing but code, of so many records of 128 bytes, at most 16,777,215.
    #[tactic(auto, unfolding(crate::specs::Plans::absolute_plan))]
    pub fn absolute(records: u32) -> Plan
        requires { records < 16777216 }
        ensures { HasPlan (absolute_plan records) result }
    {
        Plan {
            start: 0,
            length: 128 * records,
            room: 128 * records,
            bits: 0,
        }
    }

    /// How many pages of memory it takes, with its base page, 128 bytes for its stack and the last page; none where more than
    /// a segment can have, 255.
    #[tactic(auto, unfolding(crate::specs::Plans::pages_of))]
    pub fn pages(&self) -> Option<u8>
        requires { IsPlan self.now }
        ensures pages { MatchOption result (255 < pages_of self.now) (λ pages. pages ≡ pages_of self.now) }
        ensures fits { MatchOption result ⊤ (λ pages. FitsIn self.now pages) }
    {
        let pages = (self.room + 383) / 256 + 2;
        if pages <= 255 {
            Some(pages as u8)
        } else {
            None
        }
    }

    /// How many bytes of the file count: up to the last bit.
    pub(crate) fn all_bytes(&self) -> u32
        requires { IsPlan self.now }
        ensures { result ≡ bytes_in_all self.now }
    {
        self.start + self.length + self.bits
    }
}

/// The plan of a page relocatable program, by the first records of its file.
///
/// # Errors
/// Where there aren't two records, or they are no header.
#[tactic(auto, unfolding(crate::specs::Plans::plan_of))]
pub(crate) fn plan_in(records: &[u8]) -> Result<Plan, BadHeader>
    ensures ok { IfOk result (λ plan. plan_of records.now ≡ Some plan) }
    ensures bounds { IfOk result (λ plan. IsPlan plan) }
    ensures err { OnErr result (plan_of records.now ≡ None) }
{
    if records.len() < 256 {
        return Err(BadHeader);
    }
    match header(&first_record(records)) {
        Ok(header) => Ok(Plan::relocatable(header)),
        Err(BadHeader) => Err(BadHeader),
    }
}

/// The first record of some.
#[tactic(auto, using(crate::proofs::Parts::word_of_front))]
fn first_record(records: &[u8]) -> [u8; 128]
    requires { 256 ≤ length records.now }
    ensures one { word_at result 1 ≡ word_at records.now 1 }
    ensures four { word_at result 4 ≡ word_at records.now 4 }
{
    let mut first = [0; 128];
    first.copy_from_slice(&records[..128]);
    first
}
