// A fate or a number of failed tries, each with the sequence number or message id that is kept with it.
use esm_journal_record::KeptText;
use esm_model::Fate;

/// A fate, and the sequence number or message id that is kept with it.
#[derive(Drop, Debug)]
pub struct KeptFate {
    pub fate: Fate,
    pub text: KeptText,
}

/// A number of failed tries, and the sequence number that is kept with it.
#[derive(Drop, Debug)]
pub struct KeptTries {
    pub tries: u32,
    pub text: KeptText,
}
