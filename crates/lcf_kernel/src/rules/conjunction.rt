//! Rules of conjunction.
ghost use Rattle.std.specs.Prelude.{◌≡◌, ◌++◌, ◌&&◌, IfOk, IfErr};
ghost use Rattle.hol_terms.specs.Term.{Term};
ghost use Rattle.hol_terms.specs.Constants.{conjunction};
ghost use Rattle.hol_terms.specs.Formula.{SameMembers};
ghost use Rattle.lcf_kernel.specs.KernelState.{HasThm, concl_of, hyps_of, bare_of, KeepsAll};

use crate::kernel::Kernel;
use crate::rules::RuleFault;
use crate::thm::ThmId;

impl<'b> Kernel<'b> {
    //   G |- A    H |- B
    //  ------------------- and_i
    //   G, H |- (and A B)
    /// The conjunction of two conclusions.
    #[tactic(auto, using(crate::proofs::KeepLemmas::keeps_all_same, crate::proofs::KeepLemmas::keeps_all_trans))]
    pub fn and_i(&mut self, a: ThmId, b: ThmId) -> Result<ThmId, RuleFault>
        requires left { HasThm self.old a }
        requires right { HasThm self.old b }
        ensures there { IfOk result (λ r. HasThm self.new r) }
        ensures concl { IfOk result (λ r. concl_of self.new r ≡ conjunction (concl_of self.old a) (concl_of self.old b)) }
        ensures hyps { IfOk result (λ r. SameMembers (hyps_of self.new r) (hyps_of self.old a ++ hyps_of self.old b)) }
        ensures bare { IfOk result (λ r. bare_of self.new r ≡ (bare_of self.old a && bare_of self.old b)) }
        ensures shape { IfErr result (λ e. e ≡ RuleFault.Shape → ⊥) }
        ensures keeps { KeepsAll self.old self.new }
    {
        let left = self.concl(a);
        let right = self.concl(b);
        let concl = self.conjunction(left, right)?;
        let hyps = self.hyps_of_both(a, b)?;
        let bare = self.both_bare(a, b);
        let r = self.conclude(hyps, concl, bare)?;
        Ok(r)
    }

    //   G |- (and A B)
    //  ---------------- and_e1
    //       G |- A
    /// The left side of a conjunction. Shape exactly where the conclusion isn't a conjunction.
    #[tactic(auto, using(crate::proofs::KeepLemmas::keeps_all_same, crate::proofs::KeepLemmas::keeps_all_trans))]
    pub fn and_e1(&mut self, a: ThmId) -> Result<ThmId, RuleFault>
        requires { HasThm self.old a }
        ensures there { IfOk result (λ r. HasThm self.new r) }
        ensures concl { IfOk result (λ r. (other : Term) × (concl_of self.old a ≡ conjunction (concl_of self.new r) other)) }
        ensures hyps { IfOk result (λ r. SameMembers (hyps_of self.new r) (hyps_of self.old a)) }
        ensures bare { IfOk result (λ r. bare_of self.new r ≡ bare_of self.old a) }
        ensures shape { IfErr result (λ e. e ≡ RuleFault.Shape → (p q : Term) → concl_of self.old a ≡ conjunction p q → ⊥) }
        ensures keeps { KeepsAll self.old self.new }
    {
        let Some(sides) = self.conjuncts_of(a) else {
            return Err(RuleFault::Shape);
        };
        let hyps = self.hyps_copy(a)?;
        let bare = self.is_bare(a);
        let r = self.conclude(hyps, sides.left, bare)?;
        Ok(r)
    }

    //   G |- (and A B)
    //  ---------------- and_e2
    //       G |- B
    /// The right side of a conjunction. Shape exactly where the conclusion isn't a conjunction.
    #[tactic(auto, using(crate::proofs::KeepLemmas::keeps_all_same, crate::proofs::KeepLemmas::keeps_all_trans))]
    pub fn and_e2(&mut self, a: ThmId) -> Result<ThmId, RuleFault>
        requires { HasThm self.old a }
        ensures there { IfOk result (λ r. HasThm self.new r) }
        ensures concl { IfOk result (λ r. (other : Term) × (concl_of self.old a ≡ conjunction other (concl_of self.new r))) }
        ensures hyps { IfOk result (λ r. SameMembers (hyps_of self.new r) (hyps_of self.old a)) }
        ensures bare { IfOk result (λ r. bare_of self.new r ≡ bare_of self.old a) }
        ensures shape { IfErr result (λ e. e ≡ RuleFault.Shape → (p q : Term) → concl_of self.old a ≡ conjunction p q → ⊥) }
        ensures keeps { KeepsAll self.old self.new }
    {
        let Some(sides) = self.conjuncts_of(a) else {
            return Err(RuleFault::Shape);
        };
        let hyps = self.hyps_copy(a)?;
        let bare = self.is_bare(a);
        let r = self.conclude(hyps, sides.right, bare)?;
        Ok(r)
    }
}
