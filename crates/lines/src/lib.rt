// The lines of text that a session prints, in ASCII, each by value (document 01, "The session program").
#![tactic(auto)]

ghost use Rattle.std.specs.Prelude.{◌≡◌, ◌++◌, ◌+◌, ◌≤◌, [], length};
ghost use Rattle.lines.specs.Text as texts;

mod line;

pub use line::Line;

pub const LINE_ROOM: usize = 64;

pub const PORT_ROOM: usize = 128;

// "r N code C"
#[tactic(auto, unfolding(crate::specs::Text::refusal_line))]
pub fn refusal_line(n: u64, code: u8) -> Line<LINE_ROOM>
    ensures { result ≡ texts.refusal_line n code }
{
    let mut line = Line::new();
    line.push_pair(b"r ", n);
    line.push_pair(b" code ", u64::from(code));
    line.push(b"\n");
    line
}

// "records A refused B"
#[tactic(auto, unfolding(crate::specs::Text::summary_line))]
pub fn summary_line(records: u64, refused: u64) -> Line<LINE_ROOM>
    ensures { result ≡ texts.summary_line records refused }
{
    let mut line = Line::new();
    line.push_pair(b"records ", records);
    line.push_pair(b" refused ", refused);
    line.push(b"\n");
    line
}

// "port P wd W n T", and " lo L hi U" where T is above 0
#[tactic(auto, unfolding(crate::specs::Text::port_text, crate::specs::Text::ends_text, crate::specs::Text::port_line))]
pub fn port_line(port: u8, w: u16, total: u32, lo: u16, hi: u16) -> Line<PORT_ROOM>
    ensures { result ≡ texts.port_line port w total lo hi }
{
    let mut line = Line::new();
    line.push_pair(b"port ", u64::from(port));
    line.push_pair(b" wd ", u64::from(w));
    line.push_pair(b" n ", u64::from(total));
    if 0 < total {
        line.push_pair(b" lo ", u64::from(lo));
        line.push_pair(b" hi ", u64::from(hi));
    }
    line.push(b"\n");
    line
}
