// Notices, as texts.
ghost use Rattle.std.specs.Prelude.{◌≡◌, ◌++◌, IfOk, map};
ghost use Rattle.std.specs.Option.{option_to_list};
ghost use Rattle.console_session.specs.NoticeTexts as specs;

use dl_kinds::{NoMemory, Text, Texts};
use machine_core::{Notice, NoticeKind, Notices};
use rpc_envelope::LongText;
use std::alloc::Global;

fn method_of(kind: NoticeKind) -> &'static str
    ensures { result.now ≡ specs.method_of kind }
{
    match kind {
        NoticeKind::Start => "aria2.onDownloadStart",
        NoticeKind::Pause => "aria2.onDownloadPause",
        NoticeKind::Stop => "aria2.onDownloadStop",
        NoticeKind::Complete => "aria2.onDownloadComplete",
        NoticeKind::Error => "aria2.onDownloadError",
    }
}

fn notice_text(alloc: Global, notice: Notice) -> Result<Text, NoMemory>
    ensures { IfOk result (λ text. text ≡ specs.notice_text notice) }
{
    let method = method_of(notice.kind);
    let gid = hex::encode(alloc, notice.gid.0.to_be_bytes())?;
    let text = format!(in alloc;
        "{{\"jsonrpc\":\"2.0\",\"method\":\"{method}\",\"params\":[{{\"gid\":\"{gid}\"}}]}}"
    )?;
    Ok(Text::of(alloc, text.as_str())?)
}

// Puts the texts of notices behind others.
fn put_notices(alloc: Global, notices: &[Notice], texts: &mut Texts) -> Result<(), NoMemory>
    ensures { IfOk result (λ _. texts.new ≡ texts.old ++ map specs.notice_text notices.now) }
{
    for notice in notices {
        texts.push(notice_text(alloc, *notice)?)?;
    }
    Ok(())
}

/// The texts to be sent: an answer, if there is one, and then notices.
pub(crate) fn texts_of(
    alloc: Global,
    answer: &Option<LongText>,
    notices: &Notices,
) -> Result<Texts, NoMemory>
    ensures { IfOk result (λ texts. texts
        ≡ option_to_list answer.now ++ map specs.notice_text notices.now) }
{
    let mut texts = Texts::new(alloc);
    if let Some(answer) = answer {
        texts.push(answer.text(alloc)?)?;
    }
    put_notices(alloc, notices.as_slice(), &mut texts)?;
    Ok(texts)
}
