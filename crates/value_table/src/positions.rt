// Gray's two tables: for each number, eight a line, the label at that position and the position of that label.
use std::io;

fn show_entry(rt: &impl Print, i: usize, label: u16, position: u16) -> io::Result<()> {
    if i % 8 == 0 {
        print!(rt; "gray {i};")?;
    }
    print!(rt; " {label} {position}")?;
    if i % 8 == 7 {
        println!(rt)?;
    }
    Ok(())
}

pub(crate) fn entries(rt: &impl Print) -> io::Result<()> {
    let labels = gray::labels();
    let positions = gray::positions();
    for (i, (label, position)) in labels.iter().zip(&positions).enumerate() {
        show_entry(rt, i, *label, *position)?;
    }
    Ok(())
}
