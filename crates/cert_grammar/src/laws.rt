//! The laws of certificates' texts.
//! Each is a call that does nothing, and whose contract is the law.

ghost use Rattle.std.specs.Prelude.{◌≡◌, ◌≢◌, ℕ, ◌+◌, List, [], ◌++◌, length};
ghost use Rattle.cert_grammar.specs.Blocks.{Block as CertBlock};
ghost use Rattle.cert_grammar.specs.Cert.{IsCert, cert_text};
ghost use Rattle.cert_grammar.specs.declared.certified.Certified.{Certified};
ghost use Rattle.cert_grammar.specs.Certified.{IsCertificate, certificate_text};
ghost use Rattle.cert_grammar.specs.Form.{IsFormLine, IsCertText, line_count};

/// A certificate has one text, and a text is that of one certificate.
pub fn one_spelling()
    ensures { (a b : List CertBlock) → IsCert a → IsCert b → cert_text a ≡ cert_text b → a ≡ b }
{}

/// A text goes wrong at one line.
pub fn one_line()
    ensures { (bytes : List ℕ) (L M : ℕ) → IsFormLine bytes L → IsFormLine bytes M → L ≡ M }
{}

/// No text of a certificate is the beginning of another: without its last bytes it goes wrong behind its whole lines.
pub fn no_prefix()
    ensures { (bytes behind : List ℕ) → IsCertText (bytes ++ behind) → behind ≢ [] → IsFormLine bytes (line_count bytes + 1) }
{}

/// With bytes behind it a certificate goes wrong behind its last line.
pub fn no_tail()
    ensures { (bytes behind : List ℕ) → IsCertText bytes → behind ≢ [] → IsFormLine (bytes ++ behind) (line_count bytes + 1) }
{}

/// The certificates of the grammar are those of problems that are certified: each such certificate has a text, each text
/// is that of one, and of one alone.
pub fn certified_problems()
    ensures text { (c : List Certified) → IsCertificate c → IsCertText (certificate_text c) }
    ensures all { (bytes : List ℕ) → IsCertText bytes → (c : List Certified) × IsCertificate c × (bytes ≡ certificate_text c) }
    ensures one { (a b : List Certified) → IsCertificate a → IsCertificate b → certificate_text a ≡ certificate_text b → a ≡ b }
{}
