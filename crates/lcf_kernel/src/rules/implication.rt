//! Rules of implication.
ghost use Rattle.std.specs.Prelude.{◌≡◌, ◌++◌, ◌&&◌, IfOk, OnOk, IfErr};
ghost use Rattle.hol_types.specs.Ty.{BoolTy};
ghost use Rattle.hol_terms.specs.Term.{Term, ty_of};
ghost use Rattle.hol_terms.specs.Substitution.{IsClosed};
ghost use Rattle.hol_terms.specs.TermStore.{HasTerm, term_tree};
ghost use Rattle.hol_terms.specs.Constants.{implication};
ghost use Rattle.hol_terms.specs.Formula.{SameMembers, without};
ghost use Rattle.lcf_kernel.specs.KernelState.{HasThm, concl_of, hyps_of, bare_of, KeepsAll};

use crate::kernel::Kernel;
use crate::rules::RuleFault;
use crate::thm::ThmId;
use hol_terms::TermId;

impl<'b> Kernel<'b> {
    //       G |- A
    //  ------------------- imp_i      t is of type Bool
    //   G - t |- (=> t A)
    /// The implication from a formula, which is no hypothesis then. Shape exactly where the term isn't of type Bool.
    #[tactic(auto, using(crate::proofs::KeepLemmas::keeps_all_same, crate::proofs::KeepLemmas::keeps_all_trans))]
    pub fn imp_i(&mut self, a: ThmId, t: TermId) -> Result<ThmId, RuleFault>
        requires thm { HasThm self.old a }
        requires there { HasTerm self.old.store t }
        requires closed { IsClosed (term_tree self.old.store t) }
        ensures there { IfOk result (λ r. HasThm self.new r) }
        ensures concl { IfOk result (λ r. concl_of self.new r ≡ implication (term_tree self.old.store t) (concl_of self.old a)) }
        ensures hyps { IfOk result (λ r. SameMembers (hyps_of self.new r) (without (term_tree self.old.store t) (hyps_of self.old a))) }
        ensures bare { IfOk result (λ r. bare_of self.new r ≡ bare_of self.old a) }
        ensures ok { OnOk result (ty_of (term_tree self.old.store t) ≡ BoolTy) }
        ensures shape { IfErr result (λ e. e ≡ RuleFault.Shape → ty_of (term_tree self.old.store t) ≡ BoolTy → ⊥) }
        ensures keeps { KeepsAll self.old self.new }
    {
        if !self.is_formula(t) {
            return Err(RuleFault::Shape);
        }
        let right = self.concl(a);
        let concl = self.implication(t, right)?;
        let hyps = self.hyps_without(a, t)?;
        let bare = self.is_bare(a);
        let r = self.conclude(hyps, concl, bare)?;
        Ok(r)
    }

    //   G |- (=> A B)    H |- A
    //  ------------------------- imp_e
    //         G, H |- B
    /// From an implication and its left side, its right side. Shape exactly where the first conclusion isn't an
    /// implication from the second.
    #[tactic(auto, using(crate::proofs::KeepLemmas::keeps_all_same, crate::proofs::KeepLemmas::keeps_all_trans))]
    pub fn imp_e(&mut self, a: ThmId, b: ThmId) -> Result<ThmId, RuleFault>
        requires left { HasThm self.old a }
        requires right { HasThm self.old b }
        ensures there { IfOk result (λ r. HasThm self.new r) }
        ensures concl { IfOk result (λ r. concl_of self.old a ≡ implication (concl_of self.old b) (concl_of self.new r)) }
        ensures hyps { IfOk result (λ r. SameMembers (hyps_of self.new r) (hyps_of self.old a ++ hyps_of self.old b)) }
        ensures bare { IfOk result (λ r. bare_of self.new r ≡ (bare_of self.old a && bare_of self.old b)) }
        ensures shape { IfErr result (λ e. e ≡ RuleFault.Shape → (c : Term) → concl_of self.old a ≡ implication (concl_of self.old b) c → ⊥) }
        ensures keeps { KeepsAll self.old self.new }
    {
        let Some(sides) = self.sides_of(a) else {
            return Err(RuleFault::Shape);
        };
        let left = self.concl(b);
        if sides.left != left {
            return Err(RuleFault::Shape);
        }
        let hyps = self.hyps_of_both(a, b)?;
        let bare = self.both_bare(a, b);
        let r = self.conclude(hyps, sides.right, bare)?;
        Ok(r)
    }
}
