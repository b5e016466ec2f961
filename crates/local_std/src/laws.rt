//! What the definitions of answers say of each other, without any code.

ghost use Rattle.std.specs.Prelude.{◌≡◌, ◌≤◌, ℕ, List, length};
ghost use Rattle.script_grammar.specs.declared.script.Script.{Script};
ghost use Rattle.script_grammar.specs.Trees.{Tree};
ghost use Rattle.script_grammar.specs.Valid.{IsScript};
ghost use Rattle.cert_check.specs.Certificate.{Accepts};
ghost use Rattle.sparse_poly.specs.Ideal.{Problem, IsProblem};
ghost use Rattle.ring_reader.specs.Coherent.{IsCoherent};
ghost use Rattle.text_out.specs.declared.answer.Answer.{Answer};
ghost use Rattle.local_std.specs.declared.outcome.Status.{Status};
ghost use Rattle.local_std.specs.Answer.{IsAnswerOf, IsAnswer, IsCertificate, Solves};
ghost use Rattle.local_std.specs.Bench.{max_bench, bench_script};
ghost use Rattle.local_std.specs.Words.{Request, Asks, HasPath, HasWorkers};

/// A script has one answer: at most one text answers what it asks.
pub fn one_text()
    ensures { (s : Script) (text other : List ℕ) → IsAnswer s text → IsAnswer s other → text ≡ other }
{}

/// Every problem has an answer: a reduced basis and a staircase where the degree fits, and a first missing monomial elsewhere.
pub fn every_problem_has_an_answer()
    ensures { (P : Problem) → IsProblem P → (answer : Answer) × IsAnswerOf P answer }
{}

/// Every script that is read has an answer and a certificate, whose blocks are accepted.
pub fn every_script_has_an_answer()
    ensures { (s : Script) → IsCoherent s → (status : Status) × (text proof : List ℕ) × Solves s status text proof }
{}

/// Each script of the bench is in the grammar.
pub fn bench_scripts()
    ensures { (k : ℕ) → k ≤ max_bench → (tree : Tree) × IsScript (bench_script k) tree }
{}

/// The certificate that is due for a script is accepted by the checker, with a block for each command.
pub fn certificates_are_accepted()
    ensures { (s : Script) (proof : List ℕ) → IsCertificate s proof → Accepts proof (length s.commands) }
{}

/// A list of words asks for one request at most.
pub fn one_request()
    ensures { (words : List (List ℕ)) (request other : Request) → Asks words request → Asks words other → request ≡ other }
{}

/// A list of words names one path of a certificate at most.
pub fn one_path()
    ensures { (words : List (List ℕ)) (path other : List ℕ) → HasPath words path → HasPath words other → path ≡ other }
{}

/// A list of words asks for one number of workers at most.
pub fn one_count()
    ensures { (words : List (List ℕ)) (count other : ℕ) → HasWorkers words count → HasWorkers words other → count ≡ other }
{}
