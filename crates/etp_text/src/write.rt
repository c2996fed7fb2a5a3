ghost use Rattle.std.specs.Prelude.{◌≡◌, ◌≤◌, ◌++◌, OnOk, OnErr, IfOk};
ghost use Rattle.etp_theory.specs.Trees.{bound};
ghost use Rattle.etp_term.specs.Growth.{BeginsWith};
ghost use Rattle.etp_term.specs.Terms.{tree_of};
ghost use Rattle.etp_term.specs.Laws.{equation_of};
ghost use Rattle.etp_text.specs.Grammar.{SpellsTerm, SpellsLaw};
ghost use Rattle.etp_text.specs.Written.{variable_name, written_part, written_term, written_law};

use crate::text::Text;
use etp_term::{Law, Term};
use std::alloc::{AllocError, Global};

/// A term as it is written: ` ◇ ` between two parts, a part that is an operation in parentheses.
/// With variables below 64 it is a text of the term.
pub fn write_term(alloc: Global, term: &Term) -> Result<Text, AllocError>
    ensures written { IfOk result (λ text. text ≡ written_term (tree_of term.now)) }
    ensures spells { IfOk result (λ text. bound (tree_of term.now) ≤ 64
        → SpellsTerm text (tree_of term.now)) }
{
    let mut text = Text::empty(alloc);
    text.append_term(term)?;
    Ok(text)
}

/// A law as it is written: ` = ` between its two sides.
pub fn write_law(alloc: Global, law: &Law) -> Result<Text, AllocError>
    ensures written { IfOk result (λ text. text ≡ written_law (equation_of law.now)) }
    ensures spells { IfOk result (λ text. bound (tree_of law.now.left) ≤ 64
        → bound (tree_of law.now.right) ≤ 64 → SpellsLaw text (equation_of law.now)) }
{
    let mut text = Text::empty(alloc);
    text.append_law(law)?;
    Ok(text)
}

impl Text {
    /// Appends a law as it is written. After want of memory a part of it may stand behind
    /// what stood before.
    pub fn append_law(&mut self, law: &Law) -> Result<(), AllocError>
        ensures ok { OnOk result (self.new ≡ self.old ++ written_law (equation_of law.now)) }
        ensures err { OnErr result (BeginsWith self.new self.old) }
    {
        self.append_term(&law.left)?;
        self.append(b" = ")?;
        self.append_term(&law.right)
    }

    /// Appends a term as it is written. After want of memory a part of it may stand behind
    /// what stood before.
    pub fn append_term(&mut self, term: &Term) -> Result<(), AllocError>
        ensures ok { OnOk result (self.new ≡ self.old ++ written_term (tree_of term.now)) }
        ensures err { OnErr result (BeginsWith self.new self.old) }
    {
        match term {
            Term::Var(v) => self.append_variable(*v),
            Term::Op(l, r) => {
                self.append_part(l.get())?;
                self.append(" ◇ ".as_bytes())?;
                self.append_part(r.get())
            }
        }
    }

    fn append_part(&mut self, term: &Term) -> Result<(), AllocError>
        ensures ok { OnOk result (self.new ≡ self.old ++ written_part (tree_of term.now)) }
        ensures err { OnErr result (BeginsWith self.new self.old) }
    {
        match term {
            Term::Var(v) => self.append_variable(*v),
            Term::Op(l, r) => {
                self.append(b"(")?;
                self.append_part(l.get())?;
                self.append(" ◇ ".as_bytes())?;
                self.append_part(r.get())?;
                self.append(b")")
            }
        }
    }

    fn append_variable(&mut self, variable: u8) -> Result<(), AllocError>
        ensures ok { OnOk result (self.new ≡ self.old ++ variable_name variable) }
        ensures err { OnErr result (BeginsWith self.new self.old) }
    {
        match variable {
            0 => self.append(b"x"),
            1 => self.append(b"y"),
            2 => self.append(b"z"),
            3 => self.append(b"w"),
            4 => self.append(b"u"),
            5 => self.append(b"v"),
            _ => {
                self.append(b"v")?;
                self.append_number(u64::from(variable))
            }
        }
    }
}
