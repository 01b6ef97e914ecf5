// Laws of what comes of calls.
ghost use Rattle.reply_values.specs.OutcomeLaws.{OutcomesArePlain};
ghost use Rattle.reply_values.specs.WorkedTexts.{WorkedTexts};

/// No value that comes of a call has a float. It does nothing when it runs.
pub fn outcomes_are_plain()
    ensures { OutcomesArePlain }
{}

/// Worked replies have the texts that aria2's clients expect.
pub fn worked_replies_have_texts()
    ensures { WorkedTexts }
{}
