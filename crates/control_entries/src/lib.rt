//! What an entry of a lawful journal is and puts, and what each event of a plane leaves kept.
//!
//! The crate has no calls: it proves of the rules of the control plane what its steps and every further proof about its
//! journals stand on, and knows nothing of what is safe, quiet or final.
//!
//! - Whatever a controller plans is one of eighteen deeds (`Deeds`, `Planned`); it expects what stands, and changes it
//!   (`Plans`, `Controllers`), so that its write is done or refused, and is never the same (`Answers`).
//! - What an entry is, by the kind of the object that it is on (`Entries`), what it puts there (`Puts`), why a Revision
//!   is removed (`Removals`); that stamps rise and objects stand from their creation on (`Stamps`), and that bodies fit
//!   their keys (`Sound`).
//! - A round makes exactly the entry that is due (`Rounds`), and keeps the journal lawful (`LawfulEntries`,
//!   `LawfulWrites`, `LawfulRounds`); each event of a plane keeps what a plane keeps (`KeptEntries`, `KeptSteps`,
//!   `KeptEvents`).
#![tactic(auto)]
