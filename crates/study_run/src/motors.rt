// How many motors of each joint the last round of sweeps found low or high, since the rows were made.
ghost use Rattle.std.specs.Prelude.{◌≡◌};
ghost use Rattle.study_run.specs.Motors.{found, kept};

use multibody::refusal::Refusal;

// What the last round found, where one was swept since the rows were made.
pub type Motors = Option<[u8; 128]>;

// What a sweep found; of a refused one nothing.
pub fn found(swept: Result<[u8; 128], Refusal>) -> [u8; 128]
    ensures { result ≡ found swept }
{
    swept.unwrap_or([0; 128])
}

// What a sweep of so many rounds answered, if it had a round.
pub fn kept(rounds: u32, answered: [u8; 128], motors: Motors) -> Motors
    ensures { result ≡ kept rounds answered motors }
{
    if rounds == 0 { motors } else { Some(answered) }
}
