// Runs the conversion of listings both ways; `stdout` has what document 02 and docs/DECISIONS.md ask for, written by hand.
#![tactic(auto)]

use console::write;
use editions::Unconverted;
use listing::Writer;

fn write_front(rt: &impl Print, room: &[u8], count: usize) {
    if count <= room.len() {
        write(rt, &room[..count]);
    }
}

fn say_refusal(rt: &impl Print, refusal: Unconverted) {
    let _ = match refusal {
        Unconverted::Stray(line) => println!(rt; "16 line {line}"),
        Unconverted::Full => println!(rt; "17"),
    };
}

// The new listing, or the refusal.
fn say(rt: &impl Print, converted: Result<usize, Unconverted>, room: &[u8]) {
    match converted {
        Ok(count) => write_front(rt, room, count),
        Err(refusal) => say_refusal(rt, refusal),
    }
}

// How long the new listing is, or the refusal.
fn say_length(rt: &impl Print, converted: Result<usize, Unconverted>) {
    match converted {
        Ok(count) => {
            let _ = println!(rt; "{count}");
        }
        Err(refusal) => say_refusal(rt, refusal),
    }
}

fn up(rt: &impl Print, text: &[u8]) {
    let mut room = [0u8; 512];
    let converted = editions::up(text, &mut room);
    say(rt, converted, &room);
}

fn down(rt: &impl Print, text: &[u8]) {
    let mut room = [0u8; 512];
    let converted = editions::down(text, &mut room);
    say(rt, converted, &room);
}

// The room's bytes, zeros as dots.
fn show(rt: &impl Print, room: &[u8]) {
    for b in room {
        if *b == 0 {
            write(rt, b".");
        } else {
            write(rt, &[*b]);
        }
    }
    write(rt, b"|\n");
}

// What was lent is stars.
fn fit(rt: &impl Print, room: &mut [u8]) {
    say_length(rt, editions::up(b"L\t1\nN\t7\n", room));
    show(rt, room);
}

fn rooms(rt: &impl Print) {
    let mut exact = [b'*'; 8];
    fit(rt, &mut exact);
    let mut less = [b'*'; 7];
    fit(rt, &mut less);
    let mut more = [b'*'; 11];
    fit(rt, &mut more);
}

// Behind what stands in the room, where it has place.
fn append(text: &[u8], page: &mut Writer<'_>) {
    if page.at <= page.room.len() && text.len() <= page.room.len() - page.at {
        page.put(text);
    }
}

// 5,000 lines of edition 1: 4,996 of them are tokens.
fn long(room: &mut [u8]) -> usize {
    let mut page = Writer { room, at: 0 };
    append(b"L\t1\nB\tSOURCE_FILE\t0\t1\n", &mut page);
    for _ in 0..4996 {
        append(b"T\tIDENT\t0\t1\n", &mut page);
    }
    append(b"E\tSOURCE_FILE\t0\t1\nR\t0\t1\t1\n", &mut page);
    page.at
}

// How long a listing comes out, and its length on the way back; then with its last depth one too large.
fn there_and_back(rt: &impl Print, text: &[u8], room: &mut [u8], back: &mut [u8]) {
    let Ok(count) = editions::up(text, room) else {
        return;
    };
    let _ = println!(rt; "{count}");
    if room.len() < count {
        return;
    }
    say_length(rt, editions::down(&room[..count], back));
    if 10 < count {
        let last = count - 10;
        room[last] = b'1';
        say_length(rt, editions::down(&room[..count], back));
    }
}

fn lines(rt: &impl Print) {
    let mut text = [0u8; 65536];
    let mut room = [0u8; 81920];
    let mut back = [0u8; 65536];
    let count = long(&mut text);
    if count <= 65536 {
        there_and_back(rt, &text[..count], &mut room, &mut back);
    }
}

fn upwards(rt: &impl Print) {
    let texts = [
        "L\t1\n\
          B\tSOURCE_FILE\t0\t22\n\
          X\t1\t7\t16\tMETA_KW,STRINGS_KW\n\
          X\t9\t3\t5\t-\t4\n\
          X\t9\t3\t5\t-\n\
          X\t10\t0\t1\t-\n\
          B\tRULE_DECL\t0\t22\n\
          T\tRULE_KW\t0\t4\n\
          T\tBITWISE_OR\t4\t5\n\
          E\tRULE_DECL\t0\t22\n\
          E\tSOURCE_FILE\t0\t22\n\
          R\t0\t8\t4294967295\n",
        "L\t1\nN\t7\n",
        "L\t1\nF\t4\n",
        "L\t1\nR\t0\t0\t0\n",
        "L\t1\nX\t3\t0\t0\texpression,operator,pattern modifier,IDENT\nR\t0\t0\t0\n",
        "L\t1\nB\tERROR\t0\t0\nE\tEXPR\t0\t0\nR\t0\t0\t0\n",
    ];
    for text in texts {
        up(rt, text.as_bytes());
    }
}

fn not_edition_1(rt: &impl Print) {
    let texts = [
        "",
        "L\t1",
        "L\t2\nN\t7\n",
        "L\t01\nN\t7\n",
        "L\t1\n",
        "L\t1\nN\t7",
        "L\t1\nN\t07\n",
        "L\t1\nN\t4294967296\n",
        "L\t1\nN\t7\t\n",
        "L\t1\nN\t7\nN\t7\n",
        "L\t1\nN\t7\nx",
        "L\t1\nB\tSOURCE_FILE\t0\t1\nN\t7\n",
        "L\t1\nE\tSOURCE_FILE\t0\t1\nR\t0\t0\t0\n",
        "L\t1\nB\tSOURCE_FILE\t0\t1\nR\t0\t0\t0\n",
        "L\t1\nB\tRULE_KW\t0\t1\n",
        "L\t1\nT\tRULE_DECL\t0\t1\n",
        "L\t1\nT\tRULE\t0\t1\n",
        "L\t1\nB\tERROR\t0\t01\n",
        "L\t1\nB\tERROR\t0\t1\r\n",
        "L\t1\nB\tERROR\t0\t1\t0\n",
        "L\t1\nX\t1\t0\t1\t-\n",
        "L\t1\nX\t4\t0\t1\tIDENT\n",
        "L\t1\nX\t2\t0\t1\tIDENT,IDENT\n",
        "L\t1\nX\t2\t0\t1\tIDENT,\n",
        "L\t1\nX\t2\t0\t1\tBITWISE_AND\n",
        "L\t1\nX\t0\t0\t1\t-\n",
        "L\t1\nX\t11\t0\t1\t-\n",
        "L\t1\nX\t8\t0\t1\t-\t4\n",
        "L\t1\nX\t9\t0\t1\t-\t4\t0\n",
    ];
    for text in texts {
        up(rt, text.as_bytes());
    }
}

fn downwards(rt: &impl Print) {
    let texts = [
        "L\t2\n\
          B\tSOURCE_FILE\t0\t22\t0\n\
          X\t1\t7\t16\tMETA_KW,STRINGS_KW\t0\n\
          X\t9\t3\t5\t-\t4\t0\n\
          X\t9\t3\t5\t-\t0\n\
          X\t10\t0\t1\t-\t0\n\
          B\tRULE_DECL\t0\t22\t1\n\
          T\tRULE_KW\t0\t4\t2\n\
          T\tBITWISE_OR\t4\t5\t2\n\
          E\tRULE_DECL\t0\t22\t1\n\
          E\tSOURCE_FILE\t0\t22\t0\n\
          R\t0\t8\t4294967295\n",
        "L\t2\nN\t7\n",
        "L\t2\nF\t4\n",
        "L\t2\nX\t4\t0\t1\t-\t17\nR\t0\t0\t0\n",
        "L\t2\nX\t9\t0\t1\t-\t4\t17\nR\t0\t0\t0\n",
        "L\t2\nX\t9\t0\t1\t-\t17\nR\t0\t0\t0\n",
    ];
    for text in texts {
        down(rt, text.as_bytes());
    }
}

fn not_edition_2(rt: &impl Print) {
    let texts = [
        "L\t1\nN\t7\n",
        "L\t2\nX\t4\t0\t1\t-\nR\t0\t0\t0\n",
        "L\t2\nX\t4\t0\t1\t-\t017\nR\t0\t0\t0\n",
        "L\t2\nB\tSOURCE_FILE\t0\t1\n",
        "L\t2\nB\tSOURCE_FILE\t0\t1\t1\n",
        "L\t2\nB\tSOURCE_FILE\t0\t1\t00\n",
        "L\t2\nB\tSOURCE_FILE\t0\t1\t0\nT\tIDENT\t0\t1\t0\n",
        "L\t2\nB\tSOURCE_FILE\t0\t1\t0\nE\tSOURCE_FILE\t0\t1\t1\nR\t0\t0\t0\n",
        "L\t2\nR\t0\t0\t0\t0\n",
        "L\t2\nB\tSOURCE_FILE\t0\t1\t0\nE\tSOURCE_FILE\t0\t1\t0\nR\t0\t0",
    ];
    for text in texts {
        down(rt, text.as_bytes());
    }
}

fn main(rt: HostRuntime) {
    upwards(&rt);
    not_edition_1(&rt);
    downwards(&rt);
    not_edition_2(&rt);
    rooms(&rt);
    lines(&rt);
}
