//! The fixed texts of the page.
ghost use Rattle.std.specs.Prelude.{◌≡◌};
ghost use Rattle.lease_watch.specs.Markup as spec;

/// A fixed text of the page.
#[derive(Clone, Copy)]
pub(crate) enum Markup {
    Start,
    HeadEnd,
    LatelyStart,
    LatelySeconds,
    LatelyLines,
    LatelyRate,
    LatelyEnd,
    ArenasStart,
    ArenaStart,
    ArenaName,
    ArenaLimits,
    ArenaCached,
    SourceStart,
    SourceName,
    SourceEnd,
    LeasesStart,
    LeasesEnd,
    BarStart,
    RectStart,
    RectWidth,
    RectEnd,
    BarEnd,
    ItemStart,
    ItemName,
    ItemEnd,
    Space,
    ArenaEnd,
    ArenasEnd,
    TableStart,
    StateTitle,
    CaptionEnd,
    RowStart,
    RowValue,
    RowEnd,
    TableEnd,
    CellStart,
    CellValue,
    CellEnd,
    End,
}

impl Markup {
    /// The text.
    #[tactic(auto, unfolding(crate::specs::Markup::markup_of))]
    pub(crate) fn text(self) -> &'static [u8]
        ensures { result.now ≡ spec.markup_of self }
    {
        match self {
            Markup::Start => b"\
<!DOCTYPE html>
<html lang=\"en\">
<head>
<meta charset=\"utf-8\">
<meta name=\"viewport\" content=\"width=device-width,initial-scale=1\">
<meta http-equiv=\"refresh\" content=\"5\">
<title>vmemd</title>
<style>
body{font:1em/1.5 sans-serif;max-width:80em;margin:auto;padding:0 1em}
svg{display:block;width:100%;height:1.6em}
rect{fill:#ddd}
rect.leased{fill:#25a}
rect.magazine{fill:#e93}
rect.exported{fill:#6a8}
span{display:inline-block;margin-right:1.2em;padding-left:.4em;border-left:.7em solid #ddd}
span.leased{border-color:#25a}
span.slab,span.magazine{border-color:#e93}
span.exported{border-color:#6a8}
span.span{border-color:transparent}
main{display:grid;grid-template-columns:repeat(auto-fill,minmax(20em,1fr));gap:0 2em}
table{border-collapse:collapse}
caption,th{text-align:left;font-weight:normal;padding-right:1.5em}
caption{font-weight:bold;white-space:nowrap}
td{text-align:right}
</style>
</head>
<body>
<h1>vmemd ",
            Markup::HeadEnd => b"</h1>\n",
            Markup::LatelyStart => b"<p>In the last ",
            Markup::LatelySeconds => b" seconds: ",
            Markup::LatelyLines => b" lines, ",
            Markup::LatelyRate => b" a second; ",
            Markup::LatelyEnd => b" requests were refused.</p>\n",
            Markup::ArenasStart => b"<main>\n",
            Markup::ArenaStart => b"<section id=\"",
            Markup::ArenaName => b"\">\n<h2>",
            Markup::ArenaLimits => b"</h2>\n<p>quantum ",
            Markup::ArenaCached => b", cached up to ",
            Markup::SourceStart => b", imports from <a href=\"#",
            Markup::SourceName => b"\">",
            Markup::SourceEnd => b"</a>",
            Markup::LeasesStart => b", <a href=\"/leases?arena=",
            Markup::LeasesEnd => b"&amp;from=0&amp;count=1000\">leases</a>",
            Markup::BarStart => b"\
</p>
<svg viewBox=\"0 0 1000 20\" preserveAspectRatio=\"none\" aria-hidden=\"true\">
<rect width=\"1000\" height=\"20\"/>
",
            Markup::RectStart => b"<rect class=\"",
            Markup::RectWidth => b"\" width=\"",
            Markup::RectEnd => b"\" height=\"20\"/>\n",
            Markup::BarEnd => b"</svg>\n<p>\n",
            Markup::ItemStart => b"<span class=\"",
            Markup::ItemName => b"\">",
            Markup::ItemEnd => b"</span>\n",
            Markup::Space => b" ",
            Markup::ArenaEnd => b"</p>\n</section>\n",
            Markup::ArenasEnd => b"</main>\n<main>\n",
            Markup::TableStart => b"<section>\n<table>\n<caption>",
            Markup::StateTitle => b"The server.",
            Markup::CaptionEnd => b"</caption>\n",
            Markup::RowStart => b"<tr><th>",
            Markup::RowValue => b"<td>",
            Markup::RowEnd => b"\n",
            Markup::TableEnd => b"</table>\n</section>\n",
            Markup::CellStart => b"<b data-sample='",
            Markup::CellValue => b"'>",
            Markup::CellEnd => b"</b>",
            Markup::End => b"</main>\n</body>\n</html>\n",
        }
    }
}
