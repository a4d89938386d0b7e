// The exported functions by number: 10 and up DcBlocker, 20 OnePole, 30 Svf, 50 NaiveSvf, 60 ModifiedSvf, 70 CrossoverSvf; the buffer
// forms 100 above. A call answers the number that the function does, 0 where it answers none, and None where there is no such method.
// The method is matched as a number, since it comes in with the record.

use filter_exports::{
    crossover_svf_calls, dc_blocker_calls, modified_svf_calls, naive_svf_calls, one_pole_calls,
    svf_calls,
};

// What a call takes besides its filter and its buffers. No plainer with them in it: they are lent to be changed.
#[derive(Clone, Copy)]
pub(crate) struct Call {
    pub method: u32,
    pub a: u32,
    pub b: u32,
    pub step: usize,
    pub p: f32,
    pub q: f32,
    pub r: f32,
}

// A call for one sample, or for none. A filter's fields are the front of a record's state, or of its input where that is a second filter.
pub(crate) fn sample(
    call: Call,
    state: &mut [f32; 8],
    input: &[f32; 8],
    y: &mut f32,
    z: &mut f32,
) -> Option<u8> {
    let Call {
        method,
        a,
        b,
        p,
        q,
        r,
        ..
    } = call;
    match method {
        10 => dc_blocker_calls::dc_blocker_new(state.first_chunk_mut()?),
        11 => dc_blocker_calls::dc_blocker_init(state.first_chunk_mut()?, p),
        20 => one_pole_calls::one_pole_new(state.first_chunk_mut()?),
        21 => one_pole_calls::one_pole_init(state.first_chunk_mut()?),
        22 => one_pole_calls::one_pole_reset(state.first_chunk_mut()?),
        23 => return Some(one_pole_calls::one_pole_tan(p, a, y)),
        24 => return Some(one_pole_calls::one_pole_set_f(state.first_chunk_mut()?, p, a)),
        25 => return Some(one_pole_calls::one_pole_process(state.first_chunk_mut()?, p, a, y)),
        30 => svf_calls::svf_new(state.first_chunk_mut()?),
        31 => svf_calls::svf_init(state.first_chunk_mut()?),
        32 => svf_calls::svf_reset(state.first_chunk_mut()?),
        33 => svf_calls::svf_set(state.first_chunk_mut()?, input.first_chunk()?),
        34 => svf_calls::svf_set_g_r_h(state.first_chunk_mut()?, p, q, r),
        35 => svf_calls::svf_set_g_r(state.first_chunk_mut()?, p, q),
        36 => svf_calls::svf_set_g_q(state.first_chunk_mut()?, p, q),
        37 => return Some(svf_calls::svf_set_f_q(state.first_chunk_mut()?, p, q, a)),
        38 => *y = svf_calls::svf_g(state.first_chunk()?),
        39 => *y = svf_calls::svf_r(state.first_chunk()?),
        40 => *y = svf_calls::svf_h(state.first_chunk()?),
        41 => return Some(svf_calls::svf_process(state.first_chunk_mut()?, p, a, y)),
        42 => return Some(svf_calls::svf_process_dual(state.first_chunk_mut()?, p, y, z, a, b)),
        50 => naive_svf_calls::naive_svf_new(state.first_chunk_mut()?),
        51 => naive_svf_calls::naive_svf_init(state.first_chunk_mut()?),
        52 => naive_svf_calls::naive_svf_reset(state.first_chunk_mut()?),
        53 => return Some(naive_svf_calls::naive_svf_set_f_q(state.first_chunk_mut()?, p, q, a)),
        54 => *y = naive_svf_calls::naive_svf_lp(state.first_chunk()?),
        55 => *y = naive_svf_calls::naive_svf_bp(state.first_chunk()?),
        56 => return Some(naive_svf_calls::naive_svf_process(state.first_chunk_mut()?, p, a, y)),
        60 => modified_svf_calls::modified_svf_new(state.first_chunk_mut()?),
        61 => modified_svf_calls::modified_svf_init(state.first_chunk_mut()?),
        62 => modified_svf_calls::modified_svf_reset(state.first_chunk_mut()?),
        63 => modified_svf_calls::modified_svf_set_f_fq(state.first_chunk_mut()?, p, q),
        70 => crossover_svf_calls::crossover_svf_new(state),
        71 => crossover_svf_calls::crossover_svf_init(state),
        72 => crossover_svf_calls::crossover_svf_reset(state),
        73 => crossover_svf_calls::crossover_svf_set_f_fq(state, p, q),
        _ => return None,
    }
    Some(0)
}

// A buffer form.
pub(crate) fn buffers(
    call: Call,
    state: &mut [f32; 8],
    input: &[f32],
    out_1: &mut [f32],
    out_2: &mut [f32],
) -> Option<u8> {
    let Call {
        method,
        a,
        step,
        p,
        q,
        ..
    } = call;
    let number = match method {
        110 => {
            dc_blocker_calls::dc_blocker_process(state.first_chunk_mut()?, out_1);
            0
        }
        130 => svf_calls::svf_process_buffer(state.first_chunk_mut()?, input, out_1, a),
        131 => svf_calls::svf_process_add_buffer(state.first_chunk_mut()?, input, out_1, p, a),
        132 => svf_calls::svf_process_stride_buffer(
            state.first_chunk_mut()?,
            input,
            out_1,
            step,
            a,
        ),
        133 => {
            svf_calls::svf_process_multimode_buffer(state.first_chunk_mut()?, input, out_1, p);
            0
        }
        134 => svf_calls::svf_process_add_dual_buffer(
            state.first_chunk_mut()?,
            input,
            out_1,
            out_2,
            p,
            q,
            a,
        ),
        150 => naive_svf_calls::naive_svf_process_buffer(state.first_chunk_mut()?, input, out_1, a),
        151 => {
            naive_svf_calls::naive_svf_split(state.first_chunk_mut()?, input, out_1, out_2);
            0
        }
        152 => naive_svf_calls::naive_svf_process_decimate(
            state.first_chunk_mut()?,
            input,
            out_1,
            step,
            a,
        ),
        160 => modified_svf_calls::modified_svf_process(state.first_chunk_mut()?, input, out_1, a),
        170 => crossover_svf_calls::crossover_svf_process(state, input, out_1, a),
        _ => return None,
    };
    Some(number)
}
