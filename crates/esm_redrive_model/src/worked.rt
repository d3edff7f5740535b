//! Worked examples, each computed from the definitions.
ghost use Rattle.esm_redrive_model.specs.WorkedRedrives.{RedriveOne, RedriveSpent, NearRedriveOne, RedriveFound, NearRedriveFound};
ghost use Rattle.esm_redrive_model.specs.WorkedRedrives.{RedriveFifo, NearRedriveFifo};

/// A message that always fails is moved once it is visible after its last receive. One whose line was found is recorded as
/// moved without a second line. A FIFO queue's next message is called once the first of its group was moved.
pub fn redrives()
    ensures one { RedriveOne }
    ensures spent { RedriveSpent }
    ensures near_one { NearRedriveOne }
    ensures found { RedriveFound }
    ensures near_found { NearRedriveFound }
    ensures fifo { RedriveFifo }
    ensures near_fifo { NearRedriveFifo }
{}
