//! Laws of reports. A law is the contract of a function that does nothing.

ghost use Rattle.std.specs.Prelude.{◌≡◌, List, Ok};
ghost use Rattle.ar_facts.specs.Facts.{RunFacts};
ghost use Rattle.ar_facts.specs.ReportData.{report_data};
ghost use Rattle.ar_facts.specs.ReportReader.{report_in};

/// Who reads the object of a report finds the facts that it was made of, each by its name.
#[tactic(auto, using(crate::proofs::ReadBack::report_read))]
pub fn objects_read_back()
    ensures { (runs : List RunFacts) → report_in (report_data runs) ≡ Ok runs }
{}
