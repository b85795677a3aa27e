//! A proved hypothesis cut out.
ghost use Rattle.std.specs.Prelude.{◌≡◌, ◌↔◌, ◌++◌, ◌&&◌, IsTrue, IfOk, IfErr, OnOk};
ghost use Rattle.hol_terms.specs.TermStore.{HasTerm, term_tree};
ghost use Rattle.hol_terms.specs.Formula.{In, without};
ghost use Rattle.lcf_kernel.specs.KernelState.{HasThm, concl_of, hyps_of, bare_of, KeepsAll};
ghost use Rattle.hol_logic.specs.States.{States};

use hol_terms::TermId;
use lcf_kernel::{Kernel, RuleFault, ThmId};

/// Whether a term is a hypothesis of a record. It looks at as many ids as the number of hypotheses has binary digits.
fn is_hypothesis(k: &Kernel<'_>, b: ThmId, t: TermId) -> bool
    requires thm { HasThm k.now b }
    requires there { HasTerm k.now.store t }
    ensures { IsTrue result ↔ In (term_tree k.now.store t) (hyps_of k.now b) }
{
    let _said = k.concl(b);
    k.hyps(b).binary_search(&t).is_ok()
}

//   G |- A    H, A |- B
//  --------------------- cut
//      G, H - A |- B
/// The second conclusion without the hypothesis that the first record proves. Shape exactly where it isn't among the
/// second record's hypotheses.
#[tactic(auto, using(lcf_kernel::proofs::KeepLemmas::keeps_all_same, lcf_kernel::proofs::KeepLemmas::keeps_all_trans))]
pub fn cut(k: &mut Kernel<'_>, a: ThmId, b: ThmId) -> Result<ThmId, RuleFault>
    requires proved { HasThm k.old a }
    requires thm { HasThm k.old b }
    ensures states { IfOk result (λ r. States k.new r (concl_of k.old b) (hyps_of k.old a ++ without (concl_of k.old a) (hyps_of k.old b)) (bare_of k.old a && bare_of k.old b)) }
    ensures ok { OnOk result (In (concl_of k.old a) (hyps_of k.old b)) }
    ensures shape { IfErr result (λ e. e ≡ RuleFault.Shape → In (concl_of k.old a) (hyps_of k.old b) → ⊥) }
    ensures keeps { KeepsAll k.old k.new }
{
    let proved = k.concl(a);
    if !is_hypothesis(k, b, proved) {
        return Err(RuleFault::Shape);
    }
    let step = k.imp_i(b, proved)?;
    let r = k.imp_e(step, a)?;
    Ok(r)
}
