//! The labels of a switch, and the tests of its cases. Each label has a label of the draft: they are new in a row.
ghost use Rattle.std.specs.Prelude.{◌≡◌, map, IfOk, OnOk};
ghost use Rattle.c_typed.specs.Views.{section_of, sections_from};
ghost use Rattle.lower_laws.specs.Switches as laws;
ghost use Rattle.c_lower.specs.Statements as specs;
ghost use Rattle.c_lower.specs.Drafts as drafts;

use crate::fault::LowerFault;
use crate::writer::{Writer, after};
use c_typed::{Label, Section};
use hlo_num::{Op, Word};
use il_core::{End, Instr};

/// The label behind those of labels in a row.
pub(crate) fn behind_labels(labels: &[Label], at: u32) -> Result<u32, LowerFault>
    ensures { IfOk result (λ l. l ≡ specs.labels_at labels.now at) }
{
    let mut label = at;
    for l in labels {
        let _ = l;
        label = after(label)?;
    }
    Ok(label)
}

/// The label of the first default among labels in a row.
fn default_in(labels: &[Label], at: u32) -> Result<Option<u32>, LowerFault>
    ensures { IfOk result (λ d. d ≡ specs.default_in labels.now at) }
{
    let mut label = at;
    for l in labels {
        match l {
            Label::Default => return Ok(Some(label)),
            Label::Case(_) => label = after(label)?,
        }
    }
    Ok(None)
}

/// The label of a switch's default, and `behind` where it has none.
pub(crate) fn default_label(ss: &[Section], at: u32, behind: u32) -> Result<u32, LowerFault>
    ensures { IfOk result (λ d. d ≡ specs.default_label (sections_from (map section_of ss.now)) at behind) }
{
    let mut label = at;
    for section in ss {
        match default_in(section.labels.as_slice(), label)? {
            Some(found) => return Ok(found),
            None => label = behind_labels(section.labels.as_slice(), label)?,
        }
    }
    Ok(behind)
}

impl Writer {
    /// A new label for each label in a row.
    fn mark_labels(&mut self, labels: &[Label]) -> Result<(), LowerFault>
        ensures numbers { OnOk result (self.new.numbers ≡ self.old.numbers) }
        ensures draft { OnOk result (self.new.draft ≡ specs.labels_marked labels.now self.old.draft) }
    {
        for l in labels {
            let _ = l;
            self.mark(0)?;
        }
        Ok(())
    }

    /// A new label for each label of a switch. It gives the first.
    pub(crate) fn mark_cases(&mut self, ss: &[Section]) -> Result<u32, LowerFault>
        ensures label { IfOk result (λ l. l ≡ drafts.next_label self.old.draft) }
        ensures numbers { OnOk result (self.new.numbers ≡ self.old.numbers) }
        ensures draft { OnOk result (self.new.draft ≡ specs.cases_marked (sections_from (map section_of ss.now)) self.old.draft) }
    {
        let first = self.next_label()?;
        for section in ss {
            self.mark_labels(section.labels.as_slice())?;
        }
        Ok(first)
    }

    /// The test of the word in register x against a case.
    fn test_case(&mut self, x: u32, value: Word, label: u32) -> Result<(), LowerFault>
        ensures numbers { OnOk result (self.new.numbers ≡ laws.test_past self.old.numbers) }
        ensures draft { OnOk result (self.new.draft ≡ specs.case_tested x value label self.old.numbers self.old.draft) }
    {
        let word = self.constant(value)?;
        let equal = self.reg();
        self.put_new(Instr::Bin(Op::Eq, equal, x, word))?;
        let next = self.mark(after(self.block())?)?;
        self.finish(End::Branch(equal, label, next))
    }

    /// The tests of the cases among labels in a row.
    fn test_labels(&mut self, labels: &[Label], x: u32, at: u32) -> Result<(), LowerFault>
        ensures numbers { OnOk result (self.new.numbers ≡ laws.label_tests_past labels.now self.old.numbers) }
        ensures draft { OnOk result (self.new.draft ≡ specs.labels_tested x labels.now at self.old.numbers self.old.draft) }
    {
        let mut label = at;
        for l in labels {
            if let Label::Case(value) = l {
                self.test_case(x, *value, label)?;
            }
            label = after(label)?;
        }
        Ok(())
    }

    /// The tests of all cases of a switch, in order.
    pub(crate) fn test_cases(&mut self, ss: &[Section], x: u32, at: u32) -> Result<(), LowerFault>
        ensures numbers { OnOk result (self.new.numbers ≡ laws.tests_past (sections_from (map section_of ss.now)) self.old.numbers) }
        ensures draft { OnOk result (self.new.draft ≡ specs.cases_tested x (sections_from (map section_of ss.now)) at self.old.numbers self.old.draft) }
    {
        let mut label = at;
        for section in ss {
            self.test_labels(section.labels.as_slice(), x, label)?;
            label = behind_labels(section.labels.as_slice(), label)?;
        }
        Ok(())
    }

    /// Labels in a row, each of which begins a block. It says whether a block is open then.
    pub(crate) fn arrive_at_labels(
        &mut self,
        labels: &[Label],
        at: u32,
        opened: bool,
    ) -> Result<bool, LowerFault>
        ensures opened { IfOk result (λ b. b ≡ laws.labels_open labels.now opened) }
        ensures numbers { OnOk result (self.new.numbers ≡ laws.labels_past labels.now opened self.old.numbers) }
        ensures draft { OnOk result (self.new.draft ≡ specs.labels_arrived labels.now at opened self.old.numbers self.old.draft) }
    {
        let mut label = at;
        let mut goes_on = opened;
        for l in labels {
            let _ = l;
            self.arrive(label, goes_on)?;
            label = after(label)?;
            goes_on = true;
        }
        Ok(goes_on)
    }
}
