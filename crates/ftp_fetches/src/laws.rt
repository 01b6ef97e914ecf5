// Laws of what exchanges with an FTP server tell.
ghost use Rattle.std.specs.Prelude.{◌≡◌};
ghost use Rattle.ftp_fetches.specs.DialogueLaws.{FtpFetchedIsOne, FtpProbedIsOne, FtpFetchedFits, NothingHeardIsDue};

use ftp_replies::replies_are_one_and_stay;
use ftp_steps::answers_are_one_and_stay;

/// The same exchanges determine one result.
pub fn dialogues_are_one()
    ensures fetched { FtpFetchedIsOne }
    ensures probed { FtpProbedIsOne }
{
    answers_are_one_and_stay();
}

/// No more comes than the part has. It does nothing when it runs.
pub fn fetched_bytes_fit_their_part()
    ensures { FtpFetchedFits }
{}

/// Where nothing was said at a step, a reply is due. It does nothing when it runs.
pub fn nothing_heard_is_due()
    ensures { NothingHeardIsDue }
{
    replies_are_one_and_stay();
}
