//! The laws of accepted blocks. Each is a call that does nothing, and whose contract is the law.

ghost use Rattle.std.specs.Prelude.{◌≡◌, ◌↔◌, ◌⊎◌, ℕ, List, All};
ghost use Rattle.sparse_poly.specs.Ideal.{Problem as IdealProblem};
ghost use Rattle.entry_code.specs.Entry.{Entry};
ghost use Rattle.mora_law.specs.Ring.{IsAdmissible};
ghost use Rattle.mora_law.specs.Legal.{Legal};
ghost use Rattle.mora_law.specs.Settled.{AllSettled};
ghost use Rattle.cert_check.specs.declared.reason.Reason.{Reason};
ghost use Rattle.cert_grammar.specs.declared.certified.Certified.{Certified};
ghost use Rattle.cert_check.specs.Block.{IsRead};
ghost use Rattle.cert_check.specs.Accepted.{AreDivided, OthersAreDivided, IsAcceptedBlock};
ghost use Rattle.cert_check.specs.Right.{IsRight};
ghost use Rattle.cert_check.specs.Checks.{checks, Holds};
ghost use Rattle.cert_check.specs.Fault.{IsFirstFault, IsFirstFaultOf};

/// Whoever wrote it: the answer of an accepted block is the one that the ideal of its problem determines.
pub fn accepted_is_right()
    ensures { (b : Certified) → IsAdmissible b.problem → IsAcceptedBlock b → IsRight b.problem b.answer b.corner }
{}

/// And each answer that is right is accepted behind legal entries that settle every ticket, as a solve makes them.
pub fn settled_is_accepted()
    ensures { (b : Certified) → IsAdmissible b.problem → Legal b.problem b.entries → AllSettled b.problem b.entries
        → IsRight b.problem b.answer b.corner → IsAcceptedBlock b }
{}

/// Behind legal entries all tickets are divided where those without an entry are: a ticket that has an entry needs no division.
pub fn tickets_with_entries()
    ensures { (P : IdealProblem) (entries : List Entry) → IsAdmissible P → Legal P entries → AreDivided P entries ↔ OthersAreDivided P entries }
{}

/// A block that was read is accepted exactly where all its checks hold.
pub fn accepted_where_checks_hold()
    ensures { (b : Certified) → IsRead b → IsAcceptedBlock b ↔ All (Holds b) (checks b) }
{}

/// A block that was read has a first fault exactly where it isn't accepted, and one alone.
pub fn first_fault()
    ensures some { (b : Certified) → IsRead b → IsAcceptedBlock b ⊎ ((line : ℕ) × (reason : Reason) × IsFirstFault b line reason) }
    ensures refuses { (b : Certified) (line : ℕ) (reason : Reason) → IsRead b → IsFirstFault b line reason → IsAcceptedBlock b → ⊥ }
    ensures one { (b : Certified) (line other : ℕ) (reason why : Reason) → IsFirstFault b line reason → IsFirstFault b other why
        → (line ≡ other) × (reason ≡ why) }
{}

/// So it is with a certificate whose blocks were read: all are accepted, or it has a first fault.
pub fn first_fault_of_all()
    ensures some { (bs : List Certified) → All IsRead bs
        → All IsAcceptedBlock bs ⊎ ((line : ℕ) × (reason : Reason) × IsFirstFaultOf bs line reason) }
    ensures refuses { (bs : List Certified) (line : ℕ) (reason : Reason) → All IsRead bs → IsFirstFaultOf bs line reason
        → All IsAcceptedBlock bs → ⊥ }
{}
