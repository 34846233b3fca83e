use crate::part::part;
use crate::plan::{Plan, plan_in};
use mpm_prl::BadHeader;
use std::marker::Model;

/// The file of a program as it comes in: what it says of itself, and the piece that came last, at most 2,048 bytes.
#[derive(Drop)]
pub struct Load {
    plan: Plan,
    /// How many bytes came before the piece.
    before: u32,
    piece: [u8; 2048],
    length: u16,
}

impl Model for Load {
    ghost use Rattle.std.specs.Prelude.{◌≤◌, take};
    ghost use Rattle.mpm_loader.specs.Plans.{IsPlan, all_bytes};
    ghost use Rattle.mpm_loader.specs.Pieces.{Loading};

    ghost Value = { Loading };

    ghost view = { λ l. record { plan = l.plan; before = l.before; piece = take l.length l.piece } };

    ghost invariant = { λ l. (l.length ≤ 2048) × (l.before ≤ all_bytes l.plan) × IsPlan l.plan };
}

impl Load {
    ghost use Rattle.std.specs.Prelude.{◌≡◌, ◌≤◌, ◌<◌, ◌+◌, [], false, Some, None, length, IfOk, OnErr};
    ghost use Rattle.mpm_loader.specs.Plans.{IsPlan, HasPlan, absolute_plan};
    ghost use Rattle.mpm_loader.specs.Pieces.{nothing, code_in, code_place as place_of_code, marks_in, marked_place as place_of_marked, marked_length as length_of_marked, has_all as has_all_of, with_piece, begun, IsPiece, IsWithinCode};

    /// Nothing is loaded.
    #[tactic(auto, unfolding(crate::specs::Pieces::nothing, crate::specs::Plans::absolute_plan))]
    pub fn nothing() -> Load
        ensures { result ≡ nothing }
    {
        Load {
            plan: Plan::absolute(0),
            before: 0,
            piece: [0; 2048],
            length: 0,
        }
    }

    /// What the file says of itself.
    pub fn plan(&self) -> Plan
        ensures { HasPlan self.now.plan result }
    {
        self.plan
    }

    /// A page relocatable program comes in, of which this is the first piece.
    ///
    /// # Errors
    /// Where the piece has no two records, or they are no header.
    #[tactic(auto, unfolding(crate::specs::Pieces::begun))]
    pub fn begin_relocatable(&mut self, piece: &[u8]) -> Result<(), BadHeader>
        requires { length piece.now ≤ 2048 }
        ensures ok { IfOk result (λ done. begun piece.now ≡ Some self.new) }
        ensures err { OnErr result (begun piece.now ≡ None) }
        ensures stays { OnErr result (self.new ≡ self.old) }
    {
        match plan_in(piece) {
            Ok(plan) => {
                self.begin(plan, piece);
                Ok(())
            }
            Err(BadHeader) => Err(BadHeader),
        }
    }

    /// A program for page 0 comes in, of so many records, of which none has come yet.
    pub fn begin_absolute(&mut self, records: u32)
        requires { records < 16777216 }
        ensures { self.new ≡ record { plan = absolute_plan records; before = 0; piece = [] } }
    {
        self.begin(Plan::absolute(records), &[]);
    }

    /// A file comes in, with its first piece.
    fn begin(&mut self, plan: Plan, piece: &[u8])
        requires size { length piece.now ≤ 2048 }
        requires bounds { IsPlan plan }
        ensures { self.new ≡ record { plan = plan; before = 0; piece = piece.now } }
    {
        self.plan = plan;
        self.before = 0;
        self.keep(piece);
    }

    /// The piece is this one.
    fn keep(&mut self, piece: &[u8])
        requires { length piece.now ≤ 2048 }
        ensures { self.new ≡ record self.old { piece = piece.now } }
    {
        self.piece[..piece.len()].copy_from_slice(piece);
        self.length = piece.len() as u16;
    }

    /// The next piece came, where bytes are left.
    #[tactic(auto, unfolding(crate::specs::Pieces::with_piece))]
    pub fn take(&mut self, piece: &[u8])
        requires size { length piece.now ≤ 2048 }
        requires left { has_all_of self.old ≡ false }
        ensures { self.new ≡ with_piece piece.now self.old }
    {
        self.before += u32::from(self.length);
        self.keep(piece);
    }

    /// Whether no byte that counts is left.
    pub fn has_all(&self) -> bool
        ensures { result ≡ has_all_of self.now }
    {
        self.plan.all_bytes() <= self.before + u32::from(self.length)
    }

    /// The bytes of code of the piece.
    #[tactic(auto, using(crate::proofs::Parts::within_part))]
    pub fn code(&self) -> &[u8]
        ensures code { result.now ≡ code_in self.now }
        ensures few { length result.now ≤ 2048 }
        ensures within { IsWithinCode self.now.plan (place_of_code self.now) (length result.now) }
    {
        let plan = &self.plan;
        part(
            self.piece(),
            self.before,
            plan.start,
            plan.start + plan.length,
        )
    }

    /// At which byte of the code these begin.
    pub fn code_place(&self) -> u32
        ensures place { result ≡ place_of_code self.now }
        ensures below { result ≤ 2147491968 }
    {
        self.before.saturating_sub(self.plan.start)
    }

    /// What of the piece marks bytes of code, eight to a byte.
    pub fn marks(&self) -> &[u8]
        ensures { IsPiece (marks_in self.now) result.now }
    {
        let plan = &self.plan;
        let end = plan.start + plan.length;
        part(self.piece(), self.before, end, plan.all_bytes())
    }

    /// The first byte of code that these mark.
    pub fn marked_place(&self) -> u32
        ensures place { result ≡ place_of_marked self.now }
        ensures below { result ≤ 65536 }
    {
        8 * self
            .before
            .saturating_sub(self.plan.start + self.plan.length)
    }

    /// How many bytes of code these mark.
    #[tactic(auto, using(crate::proofs::Parts::some_marked))]
    pub fn marked_length(&self) -> u32
        ensures length { result ≡ length_of_marked self.now }
        ensures within { IsWithinCode self.now.plan (place_of_marked self.now) result }
        ensures few { result ≤ 16384 }
        ensures some { 0 < length (marks_in self.now) → 0 < result }
    {
        let most = 8 * self.marks().len() as u32;
        most.min(self.plan.length.saturating_sub(self.marked_place()))
    }

    /// The piece that came last.
    fn piece(&self) -> &[u8]
        ensures { IsPiece self.now.piece result.now }
    {
        &self.piece[..usize::from(self.length)]
    }
}
