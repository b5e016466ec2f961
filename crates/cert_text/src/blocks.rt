//! The blocks of a certificate.

ghost use Rattle.std.specs.Prelude.{◌≡◌, ◌∷◌, [], map, codes, IfOk};
ghost use Rattle.std.specs.List.{AllByRecursion};
ghost use Rattle.cert_grammar.specs.Certified.{IsCertified, block_of};
ghost use Rattle.cert_grammar.specs.Cert.{numbered};
ghost use Rattle.cert_text.specs.Gives.{Gives, next_is, with_items};
ghost use Rattle.cert_grammar.specs.Reading.{block_at, blocks_at, cert_at};

use crate::certificate::Cert;
use crate::certify::certify;
use crate::lines::Lines;
use crate::members::is_numbered;
use crate::stop::Stop;
use cert_grammar::Certified;
use std::alloc::Global;

impl<'a> Lines<'a> {
    /// Whether the last line stands next, behind so many blocks.
    fn is_done(&self, b: u32) -> bool
        ensures { result ≡ next_is (numbered (codes "done") b) self.now }
    {
        let Some((line, _)) = self.front() else {
            return false;
        };
        is_numbered(line, b"done", b)
    }

    /// Takes the block of that number.
    fn block(&mut self, alloc: Global, b: u32) -> Result<Certified, Stop>
        ensures read { Gives (λ x. block_of x) result self.new (block_at b self.old) }
        ensures certified { IfOk result IsCertified }
    {
        let lines = self.block_lines(alloc, b)?;
        let block = certify(alloc, lines)?;
        Ok(block)
    }

    /// Takes the blocks behind the first one, and the last line. Nothing is reserved for them.
    fn blocks(&mut self, alloc: Global, first: Certified) -> Result<Vec<Certified>, Stop>
        requires { IsCertified first }
        ensures read { Gives (λ v. map block_of v.items) result self.new (with_items (block_of first ∷ []) (blocks_at 63 1 self.old)) }
        ensures certified { IfOk result (λ v. AllByRecursion IsCertified v.items) }
    {
        let mut blocks = Vec::new(alloc);
        blocks.push(first)?;
        for b in 1..64u32 {
            if self.is_done(b) {
                self.given(b"done", b)?;
                return Ok(blocks);
            }
            blocks.push(self.block(alloc, b + 1)?)?;
        }
        self.given(b"done", 64)?;
        Ok(blocks)
    }

    /// Takes a certificate.
    #[tactic(auto, using(crate::proofs::BlockReads::cert_by))]
    pub(crate) fn cert(&mut self, alloc: Global) -> Result<Cert, Stop>
        ensures read { Gives (λ c. map block_of c) result self.new (cert_at self.old) }
        ensures certified { IfOk result (λ c. AllByRecursion IsCertified c) }
    {
        self.given(b"lstd-cert", 1)?;
        let first = self.block(alloc, 1)?;
        let blocks = self.blocks(alloc, first)?;
        Ok(Cert::new(blocks))
    }
}
