ghost use Rattle.std.specs.Prelude.{◌≡◌, IfOk};

use spp_dag::Figures;
use spp_event::open_trace;
use spp_report::{Named, csv_text, figures_text, hundredths, plain_text};
use spp_site::{Profile, Row, Table};
use std::alloc::{AllocError, Global};
use std::test::Fail;

#[test]
fn hundredths_are_rounded_down(rt: HostRuntime) {
    assert_eq!(rt; hundredths(17, 13), Some(130));
    assert_eq!(rt; hundredths(17, 16), Some(106));
    assert_eq!(rt; hundredths(0, 5), Some(0));
    assert_eq!(rt; hundredths(5, 0), None);
}

#[test]
fn figures_are_five_lines(rt: HostRuntime) -> Result<(), Fail> {
    let none = Figures {
        work: 5,
        span: 0,
        burdened: 1000,
    };
    let text = figures_text(rt.alloc(), &none)?;
    let wanted = "work 5\nspan 0\nburdened 1000\nparallelism -\nburdened parallelism 0.00\n";
    assert_eq!(rt; text.as_slice(), wanted.as_bytes());
    Ok(())
}

/// A trace without events, with the sites `A` and `a,"b`.
const TWO_SITES: &[u8] = b"SPTRACE1\x00\x00\x00\x02\x00\x00\x00\x02\x00\x00\x00\x00\x00\x00\x00\x00\
\x00\x04main\x00\x01f\x00\x01A\x00\x04a,\"b";

/// A table whose root frame, with that many instructions of its own, opens one frame of ten by the site 0.
fn table_of(alloc: Global, local: u128) -> Result<Table, AllocError> {
    let mut table = Table::new(alloc);
    table.add_root(&Row {
        count: 1,
        local,
        site_count: 1,
        site_work: 17,
        site_span: 13,
        caller_count: 1,
        caller_work: 17,
        caller_span: 13,
    });
    let ten = Row {
        count: 1,
        local: 10,
        site_count: 1,
        site_work: 10,
        site_span: 10,
        caller_count: 1,
        caller_work: 10,
        caller_span: 10,
    };
    table.add(0, &ten)?;
    Ok(table)
}

/// A profile with such tables, whose roots have that many instructions of their own.
fn profile_of(
    alloc: Global,
    on_dag: u128,
    on_path: u128,
    on_burdened_path: u128,
) -> Result<Profile, AllocError>
    ensures { IfOk result (λ p. p.figures.work ≡ 17) }
{
    let figures = Figures {
        work: 17,
        span: 13,
        burdened: 16,
    };
    let dag = table_of(alloc, on_dag)?;
    let path = table_of(alloc, on_path)?;
    let burdened_path = table_of(alloc, on_burdened_path)?;
    Ok(Profile {
        figures,
        dag,
        path,
        burdened_path,
    })
}

#[test]
fn a_record_has_the_rows_of_each_table(rt: HostRuntime) -> Result<(), Fail> {
    let Ok(trace) = open_trace(rt.alloc(), TWO_SITES) else {
        return Err("it opens".into());
    };
    let named = Named {
        trace: &trace,
        profile: &profile_of(rt.alloc(), 7, 3, 5)?,
    };
    let text = csv_text(rt.alloc(), &named)?;
    let wanted =
        "name,count,local,site_count,site_work,site_span,caller_count,caller_work,caller_span,\
path_count,path_local,path_site_count,path_site_work,path_site_span,path_caller_count,path_caller_work,path_caller_span,\
burdened_path_count,burdened_path_local,burdened_path_site_count,burdened_path_site_work,burdened_path_site_span,burdened_path_caller_count,burdened_path_caller_work,burdened_path_caller_span\n\
(root),1,7,1,17,13,1,17,13,1,3,1,17,13,1,17,13,1,5,1,17,13,1,17,13\n\
A,1,10,1,10,10,1,10,10,1,10,1,10,10,1,10,10,1,10,1,10,10,1,10,10\n\
\"a,\"\"b\",0,0,0,0,0,0,0,0,0,0,0,0,0,0,0,0,0,0,0,0,0,0,0,0\n";
    assert_eq!(rt; text.as_slice(), wanted.as_bytes());
    Ok(())
}

#[test]
fn a_report_has_each_table(rt: HostRuntime) -> Result<(), Fail> {
    let Ok(trace) = open_trace(rt.alloc(), TWO_SITES) else {
        return Err("it opens".into());
    };
    let named = Named {
        trace: &trace,
        profile: &profile_of(rt.alloc(), 7, 1_234_567_890_123, 12_345_678_901_234)?,
    };
    let text = plain_text(rt.alloc(), &named)?;
    let wanted = "work 17
span 13
burdened 16
parallelism 1.30
burdened parallelism 1.06

whole dag
       count        local   site_count    site_work    site_span caller_count  caller_work  caller_span name
           1            7            1           17           13            1           17           13 (root)
           1           10            1           10           10            1           10           10 A

first greatest path
       count        local   site_count    site_work    site_span caller_count  caller_work  caller_span name
           1 1234567890123            1           17           13            1           17           13 (root)
           1           10            1           10           10            1           10           10 A

first greatest burdened path
       count        local   site_count    site_work    site_span caller_count  caller_work  caller_span name
           1 12345678901234            1           17           13            1           17           13 (root)
           1           10            1           10           10            1           10           10 A
";
    assert_eq!(rt; text.as_slice(), wanted.as_bytes());
    Ok(())
}

#[test]
fn the_root_has_a_line_without_frames(rt: HostRuntime) -> Result<(), Fail> {
    let Ok(trace) = open_trace(rt.alloc(), TWO_SITES) else {
        return Err("it opens".into());
    };
    let figures = Figures {
        work: 0,
        span: 0,
        burdened: 0,
    };
    let named = Named {
        trace: &trace,
        profile: &Profile {
            figures,
            dag: Table::new(rt.alloc()),
            path: Table::new(rt.alloc()),
            burdened_path: Table::new(rt.alloc()),
        },
    };
    let text = plain_text(rt.alloc(), &named)?;
    let wanted = "work 0
span 0
burdened 0
parallelism -
burdened parallelism -

whole dag
       count        local   site_count    site_work    site_span caller_count  caller_work  caller_span name
           0            0            0            0            0            0            0            0 (root)

first greatest path
       count        local   site_count    site_work    site_span caller_count  caller_work  caller_span name
           0            0            0            0            0            0            0            0 (root)

first greatest burdened path
       count        local   site_count    site_work    site_span caller_count  caller_work  caller_span name
           0            0            0            0            0            0            0            0 (root)
";
    assert_eq!(rt; text.as_slice(), wanted.as_bytes());
    Ok(())
}
